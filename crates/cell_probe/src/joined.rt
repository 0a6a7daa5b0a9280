// How the shapes of a figure are joined.
use ap_io::read_ap;
use std::alloc::{AllocError, Global};
use sym_shapes::{Shape, drawn, joints};
use vlsi_base::ReadError;

/// How many shapes there are, and into how many groups links join them.
#[derive(Clone, Copy)]
pub struct Joined {
    pub shapes: u64,
    pub groups: u64,
}

/// The shapes that the lines of an ap file draw.
#[tactic(auto, using(crate::proofs::Ready::items_ready, crate::proofs::Ready::items_few))]
fn shapes_of(alloc: Global, bytes: &[u8]) -> Result<Vec<Shape>, ReadError> {
    let figure = read_ap(alloc, bytes)?;
    let shapes = drawn(alloc, figure.items.as_slice())?;
    Ok(shapes)
}

/// How many groups there are: each has one shape whose number is its own place.
fn count_groups(numbers: &[u32]) -> u64 {
    let mut groups = 0u64;
    for (place, number) in numbers.iter().enumerate() {
        if *number as usize == place {
            groups = groups.saturating_add(1);
        }
    }
    groups
}

fn count_joined(alloc: Global, shapes: &[Shape]) -> Result<Option<Joined>, AllocError> {
    let count = shapes.len();
    if count > u32::MAX as usize {
        return Ok(None);
    }
    let numbers = joints(alloc, shapes)?;
    Ok(Some(Joined {
        shapes: count as u64,
        groups: count_groups(&numbers),
    }))
}

/// How the shapes of an ap file are joined; none where there are 2^32 of them. Takes memory for what is read, and for a few
/// entries a shape.
pub fn read_joined(alloc: Global, bytes: &[u8]) -> Result<Option<Joined>, ReadError> {
    let shapes = shapes_of(alloc, bytes)?;
    let joined = count_joined(alloc, &shapes)?;
    Ok(joined)
}
