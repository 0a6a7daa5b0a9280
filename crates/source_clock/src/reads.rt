// Where the clock is read, and where a `stable` stands.
ghost use Rattle.std.specs.Prelude.{◌≡◌, ◌++◌, map};
ghost use Rattle.std.specs.Option.{option_copied};
ghost use Rattle.vlsi_base.specs.Tree.{view, operand_of};
ghost use Rattle.source_checks.specs.Lines.{first_line, in_operands};
ghost use Rattle.source_checks.specs.Places.{in_alternatives, in_assignments};
ghost use Rattle.source_checks.specs.Clock.{clock_lines, assignment_clock_lines};
ghost use Rattle.source_clock.specs.Clocking.{clock_lines_of_name};

use source_checks::{Assignment, Guarded};
use vlsi_base::{ParsedExpr, Text};

/// The line on which this name stands, if it is the clock.
fn line_of_name(clock: Option<&Text>, text: &Text, line: u32) -> Option<u32>
    ensures { result ≡ first_line (clock_lines_of_name (option_copied clock.entry) text.now line) }
{
    match clock {
        Some(clock) => {
            if clock.as_bytes() == text.as_bytes() {
                Some(line)
            } else {
                None
            }
        }
        None => None,
    }
}

/// The line of the first read of the clock, or of the first `stable`, in an expression. Takes no memory.
#[cycle(clock_line)]
#[tactic(auto, using(source_checks::proofs::FirstLines::first_line_append))]
pub fn clock_line(clock: Option<&Text>, e: &ParsedExpr) -> Option<u32>
    ensures { result ≡ first_line (clock_lines (option_copied clock.entry) (view e.now)) }
{
    match e {
        ParsedExpr::Bit(_, _) => None,
        ParsedExpr::Literal(_, _, _) => None,
        ParsedExpr::Name(text, line) => line_of_name(clock, text, *line),
        ParsedExpr::Index(_, _, _) => None,
        ParsedExpr::Slice(_, _, _) => None,
        ParsedExpr::Stable(_, line) => Some(*line),
        ParsedExpr::Not(_, inner) => clock_line(clock, inner),
        ParsedExpr::Binary(_, _, left, right) => match clock_line(clock, left) {
            Some(line) => Some(line),
            None => clock_line(clock, right),
        },
        ParsedExpr::Chain(_, first, others) => match clock_line(clock, first) {
            Some(line) => Some(line),
            None => clock_line_among(clock, others),
        },
    }
}

#[cycle(clock_line)]
#[tactic(auto, using(source_checks::proofs::FirstLines::first_line_append))]
fn clock_line_among(clock: Option<&Text>, others: &[(u32, ParsedExpr)]) -> Option<u32>
    ensures { result ≡ first_line (in_operands (clock_lines (option_copied clock.entry)) (map operand_of others.now)) }
{
    for (_, e) in others {
        if let Some(line) = clock_line(clock, e) {
            return Some(line);
        }
    }
    None
}

/// The same of an alternative: of its value, then of its condition.
#[tactic(auto, using(source_checks::proofs::FirstLines::first_line_append))]
fn clock_line_in_guarded(clock: Option<&Text>, guarded: &Guarded) -> Option<u32>
    ensures { result ≡ first_line (clock_lines (option_copied clock.entry) (view guarded.now.value)
        ++ clock_lines (option_copied clock.entry) (view guarded.now.condition)) }
{
    match clock_line(clock, &guarded.value) {
        Some(line) => Some(line),
        None => clock_line(clock, &guarded.condition),
    }
}

fn clock_line_in_alternatives(clock: Option<&Text>, alternatives: &[Guarded]) -> Option<u32>
    ensures { result ≡ first_line (in_alternatives (clock_lines (option_copied clock.entry))
        (λ line e. clock_lines (option_copied clock.entry) e) alternatives.now) }
{
    for guarded in alternatives {
        if let Some(line) = clock_line_in_guarded(clock, guarded) {
            return Some(line);
        }
    }
    None
}

/// The same of an assignment.
#[tactic(auto, using(source_checks::proofs::FirstLines::first_line_append))]
pub(crate) fn clock_line_in_assignment(clock: Option<&Text>, assignment: &Assignment) -> Option<u32>
    ensures { result ≡ first_line (assignment_clock_lines (option_copied clock.entry) assignment.now) }
{
    let choice = &assignment.choice;
    match clock_line_in_alternatives(clock, choice.alternatives.as_slice()) {
        Some(line) => Some(line),
        None => clock_line(clock, &choice.otherwise),
    }
}

/// The same of assignments.
pub(crate) fn clock_line_in_assignments(
    clock: Option<&Text>,
    assignments: &[Assignment],
) -> Option<u32>
    ensures { result ≡ first_line (in_assignments (assignment_clock_lines (option_copied clock.entry)) assignments.now) }
{
    for assignment in assignments {
        if let Some(line) = clock_line_in_assignment(clock, assignment) {
            return Some(line);
        }
    }
    None
}
