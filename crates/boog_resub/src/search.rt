// Gates that compute a word from those of a window's nodes: the nodes whose function lies within the wanted one are tried together.

use crate::forms::{Form, Shape, inverse_if};
use crate::window::{NODES, Window};
use arrayvec::ArrayVec;

/// How many nodes are tried together, by twos, threes and fours.
const TWOS: usize = 48;

const THREES: usize = 24;

const FOURS: usize = 12;

/// How many products of two are tried.
const PRODUCTS: usize = 128;

/// How many gates are found at most.
pub(crate) const FOUND: usize = 96;

/// A node's place in the window, and its word, inverted or not.
#[derive(Clone, Copy, Default)]
struct Part {
    place: usize,
    word: u64,
}

/// The product of the words of two nodes.
#[derive(Clone, Copy, Default)]
struct Product {
    first: usize,
    second: usize,
    word: u64,
}

/// What is wanted, and the nodes' words by what they are to it.
#[derive(Drop)]
pub(crate) struct Parts {
    is_negative: bool,
    is_inverted: bool,
    wanted: u64,
    within: ArrayVec<Part, NODES>,
    across: ArrayVec<Part, NODES>,
    products: ArrayVec<Product, PRODUCTS>,
}

/// Places of nodes in a window, over which a gate of the form may stand.
#[derive(Clone, Copy, Default)]
pub(crate) struct Found {
    places: [usize; 4],
    count: usize,
}

impl Found {
    pub(crate) fn places(&self) -> &[usize] {
        &self.places[..self.count.min(4)]
    }
}

/// Places that were found, as many as there is room for.
pub(crate) type AllFound = ArrayVec<Found, FOUND>;

fn add(found: &mut AllFound, places: &[usize]) {
    let mut new = Found::default();
    for (entry, place) in new.places.iter_mut().zip(places.iter()) {
        *entry = *place;
    }
    new.count = places.len();
    if !found.is_full() {
        found.push(new);
    }
}

impl Parts {
    /// The nodes of a window by what their words are to the wanted one.
    pub(crate) fn of(window: &Window, is_negative: bool, is_inverted: bool) -> Parts {
        let wanted = inverse_if(window.own, is_inverted);
        let mut parts = Parts {
            is_negative,
            is_inverted,
            wanted,
            within: ArrayVec::new(),
            across: ArrayVec::new(),
            products: ArrayVec::new(),
        };
        for (place, word) in window.words.iter().enumerate() {
            let word = inverse_if(*word, is_negative);
            let part = Part { place, word };
            if word & !wanted == 0 {
                if word != 0 && !parts.within.is_full() {
                    parts.within.push(part);
                }
            } else if word & wanted != 0 && !parts.across.is_full() {
                parts.across.push(part);
            }
        }
        parts
            .within
            .as_mut_slice()
            .sort_unstable_by_key(|part| 64u32.saturating_sub(part.word.count_ones()));
        parts.multiply();
        parts
    }

    /// Whether a gate of this form is to be found by these.
    pub(crate) fn is_for(&self, form: &Form) -> bool {
        form.is_negative == self.is_negative && form.is_inverted == self.is_inverted
    }

    fn multiply(&mut self) {
        for (count, one) in self.across.iter().enumerate() {
            for other in self.across.iter().take(count) {
                let word = one.word & other.word;
                if word != 0 && word & !self.wanted == 0 && !self.products.is_full() {
                    self.products.push(Product {
                        first: other.place,
                        second: one.place,
                        word,
                    });
                }
            }
        }
    }

    fn find_one(&self, found: &mut AllFound) {
        for a in self.within.iter() {
            if a.word == self.wanted {
                add(found, &[a.place]);
            }
        }
    }

    fn find_twos(&self, found: &mut AllFound) {
        for (count, b) in self.within.iter().take(TWOS).enumerate() {
            for a in self.within.iter().take(count) {
                if a.word | b.word == self.wanted {
                    add(found, &[a.place, b.place]);
                }
            }
        }
    }

    fn find_threes(&self, found: &mut AllFound) {
        for (many, c) in self.within.iter().take(THREES).enumerate() {
            for (count, b) in self.within.iter().take(many).enumerate() {
                let two = b.word | c.word;
                for a in self.within.iter().take(count) {
                    if a.word | two == self.wanted {
                        add(found, &[a.place, b.place, c.place]);
                    }
                }
            }
        }
    }

    fn find_fours(&self, found: &mut AllFound) {
        for (most, d) in self.within.iter().take(FOURS).enumerate() {
            for (many, c) in self.within.iter().take(most).enumerate() {
                let two = c.word | d.word;
                for (count, b) in self.within.iter().take(many).enumerate() {
                    let three = b.word | two;
                    for a in self.within.iter().take(count) {
                        if a.word | three == self.wanted {
                            add(found, &[a.place, b.place, c.place, d.place]);
                        }
                    }
                }
            }
        }
    }

    fn find_pair_and_one(&self, found: &mut AllFound) {
        for product in self.products.iter() {
            for c in self.within.iter() {
                if product.word | c.word == self.wanted {
                    add(found, &[product.first, product.second, c.place]);
                }
            }
        }
    }

    fn find_pair_and_pair(&self, found: &mut AllFound) {
        for (count, one) in self.products.iter().enumerate() {
            for other in self.products.iter().take(count) {
                if one.word | other.word == self.wanted {
                    add(found, &[one.first, one.second, other.first, other.second]);
                }
            }
        }
    }

    fn find_pair_and_two(&self, found: &mut AllFound) {
        for product in self.products.iter() {
            for (count, d) in self.within.iter().take(FOURS).enumerate() {
                let word = product.word | d.word;
                for c in self.within.iter().take(count) {
                    if word | c.word == self.wanted {
                        add(found, &[product.first, product.second, c.place, d.place]);
                    }
                }
            }
        }
    }
}

/// Pairs of nodes whose words differ in the rows of the wanted one.
fn find_differing(window: &Window, wanted: u64, found: &mut AllFound) {
    for (place, word) in window.words.iter().enumerate() {
        let missing = *word ^ wanted;
        for (before, other) in window.words.iter().take(place).enumerate() {
            if *other == missing {
                add(found, &[before, place]);
            }
        }
    }
}

/// The first node, other than this, whose word is the wanted one in the rows of a mask.
fn agreeing(window: &Window, wanted: u64, mask: u64, except: usize) -> Option<usize> {
    for (place, word) in window.words.iter().enumerate() {
        if place != except && (*word ^ wanted) & mask == 0 {
            return Some(place);
        }
    }
    None
}

/// A node that chooses between two others.
fn find_choices(window: &Window, wanted: u64, found: &mut AllFound) {
    for (place, word) in window.words.iter().enumerate() {
        let Some(first) = agreeing(window, wanted, *word, place) else {
            continue;
        };
        let Some(second) = agreeing(window, wanted, !*word, place) else {
            continue;
        };
        if first != second {
            add(found, &[place, first, second]);
        }
    }
}

/// Adds the places of nodes over which a gate of this form computes what the window's node does.
pub(crate) fn find(window: &Window, parts: &Parts, form: &Form, found: &mut AllFound) {
    match form.shape {
        Shape::Sum(0) => {
            if parts.wanted == 0 {
                add(found, &[]);
            }
        }
        Shape::Sum(1) => parts.find_one(found),
        Shape::Sum(2) => parts.find_twos(found),
        Shape::Sum(3) => parts.find_threes(found),
        Shape::Sum(_) => parts.find_fours(found),
        Shape::PairAndOne => parts.find_pair_and_one(found),
        Shape::PairAndPair => parts.find_pair_and_pair(found),
        Shape::PairAndTwo => parts.find_pair_and_two(found),
        Shape::Differ => find_differing(window, parts.wanted, found),
        Shape::Choice => find_choices(window, parts.wanted, found),
    }
}
