// What cells compute: sums of few products of two or one, an exclusive or, a choice, with inputs or output inverted.

use crate::net::{Columns, columns_of, word_of};
use arrayvec::ArrayVec;
use cell_match::{CellWord, Gate};
use std::alloc::{AllocError, Global};
use truth_tab::Truth;

/// How many inputs a cell of a form has at most, and how many lists of as many variables there are.
const INPUTS: usize = 4;

const ORDERS: usize = 256;

/// A function of a few variables.
#[derive(Clone, Copy, PartialEq, Eq)]
pub(crate) enum Shape {
    /// The sum of so many.
    Sum(usize),
    /// ab + c
    PairAndOne,
    /// ab + cd
    PairAndPair,
    /// ab + c + d
    PairAndTwo,
    /// Whether two differ.
    Differ,
    /// The second where the first is 1, and else the third.
    Choice,
}

const SHAPES: [Shape; 10] = [
    Shape::Sum(0),
    Shape::Sum(1),
    Shape::Sum(2),
    Shape::Sum(3),
    Shape::Sum(4),
    Shape::PairAndOne,
    Shape::PairAndPair,
    Shape::PairAndTwo,
    Shape::Differ,
    Shape::Choice,
];

/// A shape of variables, inverted or as they are, itself inverted or not, that a cell has.
#[derive(Clone, Copy)]
pub(crate) struct Form {
    pub(crate) shape: Shape,
    pub(crate) is_negative: bool,
    pub(crate) is_inverted: bool,
    pub(crate) area: Columns,
    fit: Fit,
}

/// A cell, and the variable at each of its inputs.
#[derive(Clone, Copy)]
struct Fit {
    cell: usize,
    inputs: usize,
    order: [usize; INPUTS],
}

/// The forms that cells have, those of narrow cells first.
#[derive(Drop)]
pub(crate) struct Forms {
    pub(crate) forms: Vec<Form>,
}

fn variable(k: usize) -> u64 {
    if k < 6 {
        let word: Truth<6> = Truth::var(k);
        word.word
    } else {
        0
    }
}

/// Whether the inverted variables give the shape other functions.
fn has_negative(shape: Shape) -> bool {
    shape != Shape::Differ && shape != Shape::Choice
}

fn inputs_of(shape: Shape) -> usize {
    match shape {
        Shape::Sum(0) => 0,
        Shape::Sum(1) => 1,
        Shape::Sum(2) | Shape::Differ => 2,
        Shape::Sum(3) | Shape::PairAndOne | Shape::Choice => 3,
        _ => 4,
    }
}

/// A word, or its inverse.
pub(crate) fn inverse_if(word: u64, is_inverse: bool) -> u64 {
    if is_inverse { !word } else { word }
}

fn shape_word(shape: Shape, is_negative: bool) -> u64 {
    let a = inverse_if(variable(0), is_negative);
    let b = inverse_if(variable(1), is_negative);
    let c = inverse_if(variable(2), is_negative);
    let d = inverse_if(variable(3), is_negative);
    match shape {
        Shape::Sum(0) => 0,
        Shape::Sum(1) => a,
        Shape::Sum(2) => a | b,
        Shape::Sum(3) => a | b | c,
        Shape::Sum(_) => a | b | c | d,
        Shape::PairAndOne => (a & b) | c,
        Shape::PairAndPair => (a & b) | (c & d),
        Shape::PairAndTwo => (a & b) | c | d,
        Shape::Differ => a ^ b,
        Shape::Choice => (a & b) | (!a & c),
    }
}

impl Form {
    /// A gate of this form over these nodes.
    pub(crate) fn gate(&self, nodes: &[u32]) -> Gate {
        let mut leaves = ArrayVec::new();
        for place in self.fit.order.iter().take(self.fit.inputs) {
            if let Some(node) = nodes.get(*place) {
                if !leaves.is_full() {
                    leaves.push(*node);
                }
            }
        }
        Gate {
            cell: self.fit.cell,
            leaves,
        }
    }
}

/// Whether the first so many of these variables are the first so many, each once.
fn is_order(order: &[usize; INPUTS], inputs: usize) -> bool {
    for place in 0..inputs.min(INPUTS) {
        if order[place] >= inputs {
            return false;
        }
        for before in 0..place {
            if order[before] == order[place] {
                return false;
            }
        }
    }
    true
}

/// The function of a cell with these variables at its inputs.
fn word_under(cell: &CellWord, order: &[usize; INPUTS], inputs: usize) -> u64 {
    let mut words: ArrayVec<u64, INPUTS> = ArrayVec::new();
    for place in order.iter().take(inputs) {
        if !words.is_full() {
            words.push(variable(*place));
        }
    }
    word_of(cell, words.as_slice())
}

/// The first cell of so many inputs that has this function, in some order; None where no cell has it.
fn fit_of(cells: &[CellWord], inputs: usize, word: u64) -> Option<Fit> {
    for (number, cell) in cells.iter().enumerate() {
        if cell.inputs as usize != inputs {
            continue;
        }
        for code in 0..ORDERS {
            let order = [code % 4, code / 4 % 4, code / 16 % 4, code / 64 % 4];
            if is_order(&order, inputs) && word_under(cell, &order, inputs) == word {
                return Some(Fit {
                    cell: number,
                    inputs,
                    order,
                });
            }
        }
    }
    None
}

/// The form with its cell; None where no cell has it.
fn form_of(
    cells: &[CellWord],
    areas: &[u32],
    shape: Shape,
    is_negative: bool,
    is_inverted: bool,
) -> Option<Form> {
    if is_negative && !has_negative(shape) {
        return None;
    }
    let word = inverse_if(shape_word(shape, is_negative), is_inverted);
    let fit = fit_of(cells, inputs_of(shape), word)?;
    Some(Form {
        shape,
        is_negative,
        is_inverted,
        area: columns_of(areas, fit.cell),
        fit,
    })
}

impl Forms {
    pub(crate) fn new(
        alloc: Global,
        cells: &[CellWord],
        areas: &[u32],
    ) -> Result<Forms, AllocError> {
        let mut forms: Vec<Form> = Vec::new(alloc);
        for shape in SHAPES {
            for is_negative in [false, true] {
                for is_inverted in [false, true] {
                    if let Some(form) = form_of(cells, areas, shape, is_negative, is_inverted) {
                        forms.push(form)?;
                    }
                }
            }
        }
        forms.sort_by_key(|form| form.area)?;
        Ok(Forms { forms })
    }
}
