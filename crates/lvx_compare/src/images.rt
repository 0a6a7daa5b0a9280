// Which classes of two netlists have the same members in both.
ghost use Rattle.std.specs.Prelude.{◌≡◌, ◌<◌, length, map, IfOk};
ghost use Rattle.std.specs.List.{All};
ghost use Rattle.lvx_compare.specs.Stages.{with_member, AreImages, is_kept, AreMarks};

use crate::matching::classes_in;
use net_core::Netlist;
use std::alloc::{AllocError, Global};

/// Where the members of a class are in the other netlist.
#[derive(Clone, Copy)]
pub(crate) enum Image {
    /// No member was met.
    Unseen,
    /// All are in this class.
    Within(u32),
    /// They are in several classes, or one isn't there.
    Scattered,
}

impl Image {
    /// With one more member, whose class there is this one.
    fn with_member(self, class: Option<u32>) -> Self
        ensures { result ≡ with_member self class }
    {
        match (self, class) {
            (Image::Unseen, Some(found)) => Image::Within(found),
            (Image::Within(known), Some(found)) if found == known => self,
            _ => Image::Scattered,
        }
    }

    /// Whether the members are those of one class of the other netlist, by the images of its classes.
    fn is_kept(self, back: &[Image]) -> bool
        ensures { result ≡ is_kept back.now self }
    {
        match self {
            Image::Within(class) => matches!(back.get(class as usize), Some(Image::Within(_))),
            _ => false,
        }
    }
}

/// Where the members of each class are in the other netlist, by the class that each terminal has here and there.
fn images(
    alloc: Global,
    count: u32,
    classes: &[u32],
    found: &[Option<u32>],
) -> Result<Vec<Image>, AllocError>
    requires each { length found.now ≡ length classes.now }
    requires inside { All (λ class. class < count) classes.now }
    ensures many { IfOk result (λ images. length images.items ≡ count) }
    ensures images { IfOk result (λ images. AreImages classes.now found.now images.items) }
{
    let mut images = vec![in alloc; Image::Unseen; count as usize]?;
    for k in 0..classes.len() {
        let class = classes[k] as usize;
        let image = images[class];
        images[class] = image.with_member(found[k]);
    }
    Ok(images)
}

/// For each class whether its members are one class of the other netlist, by the images of the classes of both.
fn marks(alloc: Global, images: &[Image], back: &[Image]) -> Result<Vec<bool>, AllocError>
    ensures { IfOk result (λ marks. marks.items ≡ map (is_kept back.now) images.now) }
{
    images
        .iter()
        .map(|image| image.is_kept(back))
        .collect(alloc)
}

/// For each class of two netlists whether its members are one class of the other. Takes memory and time for each terminal, time
/// with the logarithm of the number of instances.
pub(crate) fn kept_classes(
    alloc: Global,
    a: &Netlist,
    b: &Netlist,
) -> Result<(Vec<bool>, Vec<bool>), AllocError>
    ensures first { IfOk result (λ kept. AreMarks a.now b.now kept.0.items) }
    ensures second { IfOk result (λ kept. AreMarks b.now a.now kept.1.items) }
{
    let there = classes_in(alloc, b, a)?;
    let here = classes_in(alloc, a, b)?;
    let ahead = images(alloc, a.count(), a.classes(), &there)?;
    let back = images(alloc, b.count(), b.classes(), &here)?;
    Ok((marks(alloc, &ahead, &back)?, marks(alloc, &back, &ahead)?))
}
