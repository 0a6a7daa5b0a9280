// Gates that nothing reads.
ghost use Rattle.std.specs.Prelude.{◌≡◌, ◌⊎◌, ◌↔◌, ◌<◌, ◌≤◌, ℕ, List, length, true, Option, Some, None};
ghost use Rattle.cell_match.specs.declared.gate.Gate.{Gate};
ghost use Rattle.cell_match.specs.Places.{times};
ghost use Rattle.boog_tight.specs.Cover.{gate_at, leaves_of, used, uses};
ghost use Rattle.boog_cover.specs.Pruned.{IsMarked, IsFull, IsPruned};

use cell_match::Gate;

/// Marks these numbers.
pub(crate) fn mark(marks: &mut [bool], numbers: &[u32])
    requires { (x : ℕ) → 0 < times x numbers.now → x < length marks.old }
    ensures { (x : ℕ) → IsMarked marks.new x ↔ (IsMarked marks.old x ⊎ (0 < times x numbers.now)) }
{
    for number in numbers {
        marks[*number as usize] = true;
    }
}

fn mark_gate(marks: &mut [bool], gate: &Option<Gate>)
    requires { (x : ℕ) → 0 < times x (leaves_of gate.now) → x < length marks.old }
    ensures { (x : ℕ) → IsMarked marks.new x ↔ (IsMarked marks.old x ⊎ (0 < times x (leaves_of gate.now))) }
{
    match gate {
        Some(gate) => mark(marks, gate.leaves.as_slice()),
        None => {}
    }
}

/// Takes out each gate that no root and no other gate needs. The marks are for its own use: none may stand.
pub fn prune(gates: &mut [Option<Gate>], marks: &mut [bool], held: usize, roots: &[u32])
    requires long { length marks.old ≡ length gates.old }
    requires clear { (x : ℕ) → IsMarked marks.old x → ⊥ }
    requires roots { (x : ℕ) → 0 < times x roots.now → x < length gates.old }
    requires full { IsFull held gates.old }
    ensures { IsPruned held gates.old gates.new roots.now }
{
    mark(marks, roots);
    let mut rest = gates.len();
    while rest > held {
        rest -= 1;
        if marks[rest] {
            mark_gate(marks, &gates[rest]);
        } else {
            gates[rest] = None;
        }
    }
}
