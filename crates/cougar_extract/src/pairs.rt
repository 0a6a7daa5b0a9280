// Joining the terminals of connectors that have one number.
ghost use Rattle.std.specs.Prelude.{◌≡◌, map, length, OnOk};
ghost use Rattle.std.specs.List.{All};
ghost use Rattle.net_core.specs.declared.error.BuildError.TheVariants.{Memory};
ghost use Rattle.net_core.specs.Places.{IsThere};
ghost use Rattle.net_core.specs.Joins.{draft_terminals};
ghost use Rattle.cougar_extract.specs.Stages.{AreBelow, AreLeaders, join_of, with_joins};

use crate::links::Link;
use net_core::{BuildError, Builder};
use std::alloc::AllocError;

/// What is refused for memory alone.
pub(crate) fn only_memory(error: BuildError) -> AllocError
    requires { error ≡ Memory }
{
    match error {
        BuildError::Memory => AllocError,
        BuildError::Twice => unreachable!(),
        BuildError::Unknown => unreachable!(),
    }
}

/// Joins each connector's terminal with that of the leader of its number. Takes memory for the pairs, and time for the logarithm
/// of the number of terminals for each.
pub(crate) fn join_links(
    builder: &mut Builder,
    links: &[Link],
    places: &[usize],
) -> Result<(), AllocError>
    requires there { All (λ x. IsThere (draft_terminals builder.old) x.terminal) links.now }
    requires below { AreBelow links.now (length places.now) }
    requires led { AreLeaders links.now places.now }
    ensures { OnOk result (builder.new ≡ with_joins builder.old (map (join_of links.now places.now) links.now)) }
{
    for link in links {
        let number = link.number;
        let place = places[number as usize];
        let leader = &links[place];
        match builder.join(&leader.terminal, &link.terminal) {
            Ok(()) => {}
            Err(error) => return Err(only_memory(error)),
        }
    }
    Ok(())
}
