// What is the same of the roots of all machines of one text.
ghost use Rattle.vbe_roots.specs.Law.{MachinesHaveTheSameRoots, MachinesHaveTheSameDags, MachinesCountTheSame, MachinesAreWithinTheSame, InnerSignalsWeighTheSame};

use vbe_laws::machines_are_the_same;

/// The machines of one text have the same roots in one order, with the same expansions; so the diagrams of these have the same sizes,
/// and none is over a budget where none of the others' is. And their inner signals weigh the same.
pub fn roots_are_the_same()
    ensures roots { MachinesHaveTheSameRoots }
    ensures dags { MachinesHaveTheSameDags }
    ensures counts { MachinesCountTheSame }
    ensures within { MachinesAreWithinTheSame }
    ensures inner { InnerSignalsWeighTheSame }
{
    machines_are_the_same();
}
