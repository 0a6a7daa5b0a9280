// Groups of joined shapes, and the links that hold them together.
ghost use Rattle.std.specs.Prelude.{◌≡◌, ◌<◌, ◌^◌, [], length, OnOk, IfOk};
ghost use Rattle.sym_groups.specs.Ties.{Alone, JoinsTies};
ghost use Rattle.sym_shapes.specs.Joints.{AddsLink, LinksLead, Spans, Covers};

use crate::Shape;
use crate::marks::{Kind, join_marked};
use crate::sweep::join_touching;
use std::alloc::{AllocError, Global};
use sym_groups::Groups;

/// Two linked shapes, by their places.
#[derive(Clone, Copy)]
pub struct Link {
    pub from: u32,
    pub to: u32,
}

/// Groups of shapes, and links that lead from each shape of a group to each other one: just as many as that takes, each
/// both ways.
#[derive(Drop)]
pub struct Forest {
    pub groups: Groups,
    pub links: Vec<Link>,
}

impl Forest {
    /// Each of `count` shapes alone.
    fn new(alloc: Global, count: u32) -> Result<Self, AllocError>
        ensures count { IfOk result (λ f. length f.groups ≡ count) }
        ensures alone { IfOk result (λ f. Alone f.groups) }
        ensures none { IfOk result (λ f. f.links.items ≡ []) }
    {
        let groups = Groups::new(alloc, count)?;
        Ok(Forest {
            groups,
            links: Vec::new(alloc),
        })
    }

    /// Puts the groups of two linked shapes into one, and keeps the link if they were two.
    pub fn link(&mut self, a: u32, b: u32) -> Result<(), AllocError>
        requires a_within { a < length self.old.groups }
        requires b_within { b < length self.old.groups }
        ensures joins { OnOk result (JoinsTies self.old.groups self.new.groups a b) }
        ensures adds { OnOk result (AddsLink self.old.links.items self.new.links.items a b) }
        ensures leads { OnOk result (LinksLead self.old → LinksLead self.new) }
    {
        if self.groups.join(a, b) {
            self.links.push(Link { from: a, to: b })?;
            self.links.push(Link { from: b, to: a })?;
        }
        Ok(())
    }
}

/// The groups of all shapes that are joined.
pub fn join_all(alloc: Global, shapes: &[Shape]) -> Result<Forest, AllocError>
    requires { length shapes.now < 2 ^ 32 }
    ensures count { IfOk result (λ f. length f.groups ≡ length shapes.now) }
    ensures covers { IfOk result (λ f. Covers shapes.now f.groups) }
    ensures spans { IfOk result (λ f. Spans shapes.now f) }
{
    let mut forest = Forest::new(alloc, shapes.len() as u32)?;
    join_touching(alloc, &mut forest, shapes)?;
    join_marked(alloc, &mut forest, shapes, Kind::Line)?;
    join_marked(alloc, &mut forest, shapes, Kind::Name)?;
    Ok(forest)
}
