// Tests for pairs of states.
ghost use Rattle.std.specs.Prelude.{◌≡◌, ◌<◌, length, IfOk};
ghost use Rattle.fsm_merge.specs.Numbering.{nth};
ghost use Rattle.fmi_refine.specs.Rows.{AreRows};
ghost use Rattle.fmi_refine.specs.Refined.{AreLevels, last_level};
ghost use Rattle.fmi_min.specs.Tests.{TellsApart, AreTestsWith, AreAllTests};

use bool_expr::Vars;
use fmi_refine::{Refinement, telling};
use std::alloc::{AllocError, Global};
use vlsi_base::Listed;

/// A test of a state with each state before it: the numbers of its vectors, one after another.
pub type TestRow = Listed<Vars>;

/// Tests for pairs of states: row q has a test of p and q for each p < q.
pub type Tests = Listed<TestRow>;

// Numbers of vectors that tell two of the kept states apart. Takes memory for them.
fn test_between(alloc: Global, by: &Refinement, pair: (u32, u32)) -> Result<Vars, AllocError>
    requires rows { AreRows by.now.rows.now }
    requires levels { AreLevels by.now.rows.now by.now.levels.now }
    requires first { pair.0 < length by.now.rows.now }
    requires second { pair.1 < length by.now.rows.now }
    requires apart { nth (last_level by.now.levels.now).state_of pair.0 ≡ nth (last_level by.now.levels.now).state_of pair.1 → ⊥ }
    ensures { IfOk result (λ test. TellsApart by.now.rows.now by.now.levels.now pair.0 pair.1 test) }
{
    let numbers = telling(alloc, by, pair.0, pair.1)?;
    Ok(Vars::new(numbers))
}

// A test of kept state number q with each one before it. Takes memory for them.
fn tests_with(alloc: Global, by: &Refinement, q: usize) -> Result<TestRow, AllocError>
    requires rows { AreRows by.now.rows.now }
    requires levels { AreLevels by.now.rows.now by.now.levels.now }
    requires known { q < length (last_level by.now.levels.now).kept }
    ensures { IfOk result (λ row. AreTestsWith by.now.rows.now by.now.levels.now q row) }
{
    let levels = by.levels;
    let kept = levels[levels.len() - 1].kept.as_slice();
    let mut row = Vec::with_capacity(alloc, q)?;
    for p in 0..q {
        row.push(test_between(alloc, by, (kept[p], kept[q]))?)?;
    }
    Ok(TestRow::new(row))
}

// A test for each pair of kept states. Takes memory for them.
pub(crate) fn all_tests(alloc: Global, by: &Refinement) -> Result<Tests, AllocError>
    requires rows { AreRows by.now.rows.now }
    requires levels { AreLevels by.now.rows.now by.now.levels.now }
    ensures { IfOk result (λ tests. AreAllTests by.now.rows.now by.now.levels.now tests) }
{
    let levels = by.levels;
    let count = levels[levels.len() - 1].kept.as_slice().len();
    let mut tests = Vec::with_capacity(alloc, count)?;
    for q in 0..count {
        tests.push(tests_with(alloc, by, q)?)?;
    }
    Ok(Tests::new(tests))
}
