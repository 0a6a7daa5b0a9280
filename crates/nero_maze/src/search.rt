// The search for a least path, level by level from its target: Lee's maze router (1961), where steps and vias have weights, with the bound
// on the rest of the way that A* has (Hart, Nilsson and Raphael, 1968). The bound is the distance to the least box that holds the tree.
ghost use Rattle.std.specs.Prelude.{◌≡◌, ℕ, ◌+◌, ◌<◌, List, IfNone, IfSome, length, slice_index};
ghost use Rattle.grid_core.specs.Numbers.{nodes};
ghost use Rattle.nero_maze.specs.Hulls.{far, Holds};
ghost use Rattle.nero_maze.specs.Levels.{Knows, Flat, Spread, AllMarked, IsLonger};
ghost use Rattle.nero_maze.specs.Search.{IsRoom, IsField, IsOwn, Kept, LeadsTo, NoneBelow, Trace, AreWords, words_in};

use crate::frontier::{FRESH, Field, Frontier, Room, START, Span, Words, expand, met, settle};
use crate::hull::{Hull, far_from};
use crate::level::{Level, first_level, next_level};
use crate::way::place_of;

/// The node of the net's tree that a search met, and the cost from there to the target.
#[derive(Clone, Copy, Drop)]
pub(crate) struct Meeting {
    pub(crate) node: u32,
    pub(crate) cost: u64,
}

/// Goes on from the entries of earlier levels, as far as this one.
fn advance(field: &Field, frontier: &mut Frontier, level: &Level)
    requires field { IsField field.now }
    requires knows { Knows field.now.grid (words_in field.now.words) field.now.net (far field.now.grid field.now.hull) level.now
        frontier.old.order.items frontier.old.marks.items frontier.old.count }
    requires flat { Flat frontier.old.order.items frontier.old.marks.items frontier.old.count }
    requires first { level.now.first ≡ frontier.old.count }
    ensures knows { Knows field.now.grid (words_in field.now.words) field.now.net (far field.now.grid field.now.hull) level.now
        frontier.new.order.items frontier.new.marks.items frontier.new.count }
    ensures flat { Flat frontier.new.order.items frontier.new.marks.items level.now.first }
    ensures spread { Spread field.now.grid (words_in field.now.words) field.now.net (far field.now.grid field.now.hull) level.now
        frontier.new.order.items frontier.new.marks.items level.now.first }
    ensures longer { IsLonger frontier.old.order.items frontier.old.count frontier.new.order.items frontier.new.count }
{
    let sixth = Span {
        from: level.six,
        to: level.five,
    };
    expand(field, frontier, sixth, 6);
    let third = Span {
        from: level.three,
        to: level.two,
    };
    expand(field, frontier, third, 3);
    let second = Span {
        from: level.two,
        to: level.one,
    };
    expand(field, frontier, second, 2);
    let last = Span {
        from: level.one,
        to: level.first,
    };
    expand(field, frontier, last, 1);
}

/// Goes on from the entries of this level to others of this level, until none is left.
fn spill(field: &Field, frontier: &mut Frontier, level: &Level)
    requires field { IsField field.now }
    requires knows { Knows field.now.grid (words_in field.now.words) field.now.net (far field.now.grid field.now.hull) level.now
        frontier.old.order.items frontier.old.marks.items frontier.old.count }
    requires flat { Flat frontier.old.order.items frontier.old.marks.items level.now.first }
    requires spread { Spread field.now.grid (words_in field.now.words) field.now.net (far field.now.grid field.now.hull) level.now
        frontier.old.order.items frontier.old.marks.items level.now.first }
    ensures knows { Knows field.now.grid (words_in field.now.words) field.now.net (far field.now.grid field.now.hull) level.now
        frontier.new.order.items frontier.new.marks.items frontier.new.count }
    ensures flat { Flat frontier.new.order.items frontier.new.marks.items frontier.new.count }
    ensures all { AllMarked field.now.grid (words_in field.now.words) field.now.net (far field.now.grid field.now.hull) level.now.target
        frontier.new.marks.items (level.now.sum + 1) }
    ensures longer { IsLonger frontier.old.order.items frontier.old.count frontier.new.order.items frontier.new.count }
{
    let mut at = level.first;
    while at < frontier.count {
        settle(frontier, at);
        let one = Span {
            from: at,
            to: at + 1,
        };
        expand(field, frontier, one, 0);
        at += 1;
    }
}

/// Goes from the target, level by level of the cost and of what a way from there to the hull costs at the least, over the nodes whose
/// word is the net's own or `NOBODY`, until it meets a node of the net's tree. The hull holds this tree.
pub(crate) fn search(
    room: &Room,
    words: Words,
    net: u32,
    target: u32,
    hull: Hull,
    frontier: &mut Frontier,
) -> Option<Meeting>
    requires room { IsRoom room.now }
    requires words { AreWords words (nodes room.now.grid) }
    requires marks { length frontier.old.marks.items ≡ nodes room.now.grid }
    requires order { length frontier.old.order.items ≡ nodes room.now.grid }
    requires clear { (v : ℕ) → slice_index frontier.old.marks.items v ≡ 0 }
    requires target { target < nodes room.now.grid }
    requires hull { Holds room.now.grid hull room.now.owners.items room.now.links.items net }
    requires outside { IsOwn room.now.owners.items room.now.links.items net target → ⊥ }
    ensures marks { length frontier.new.marks.items ≡ nodes room.now.grid }
    ensures kept { Kept frontier.new.order.items frontier.new.marks.items frontier.new.count }
    ensures within { IfSome result (λ m. m.node < nodes room.now.grid) }
    ensures own { IfSome result (λ m. IsOwn room.now.owners.items room.now.links.items net m.node) }
    ensures trace { IfSome result (λ m. (back : List ℕ) × (length back < nodes room.now.grid)
        × Trace room.now.grid (words_in words.entry) net frontier.new.marks.items target m.node back m.cost) }
    ensures least { IfSome result (λ m. (v : ℕ) → IsOwn room.now.owners.items room.now.links.items net v
        → NoneBelow room.now.grid (words_in words.entry) net target v m.cost) }
    ensures none { IfNone result ((v : ℕ) (back : List ℕ) (c : ℕ) → IsOwn room.now.owners.items room.now.links.items net v
        → LeadsTo room.now.grid (words_in words.entry) net target v back c → ⊥) }
{
    let field = Field {
        grid: room.grid,
        hull,
        words,
        net,
    };
    frontier.ties.set(target, 0);
    frontier.marks[target as usize] = START + FRESH;
    frontier.order[0] = target;
    frontier.count = 1;
    let sum = far_from(&hull, place_of(&room.grid, target));
    let mut level = first_level(target, sum);
    while level.six < frontier.count {
        spill(&field, frontier, &level);
        if let Some(node) = met(room, net, frontier, level.first) {
            return Some(Meeting {
                node,
                cost: level.sum,
            });
        }
        level = next_level(level, frontier.count);
        advance(&field, frontier, &level);
    }
    None
}
