// Expressions that are one name.
ghost use Rattle.std.specs.Prelude.{◌≡◌};
ghost use Rattle.std.specs.Option.{option_map};
ghost use Rattle.vlsi_base.specs.Tree.{view};
ghost use Rattle.source_checks.specs.Uses.{use_of as place_use};
ghost use Rattle.fsm_io.specs.Looks.{plain_use, is_bare};

use fsm_text::FirstToken;
use source_checks::Place;
use vlsi_base::ParsedExpr;

/// The name that an expression is, alone, with its line.
pub fn plain_name(e: &ParsedExpr) -> Option<Place<'_>>
    ensures { option_map place_use result ≡ plain_use (view e.now) }
{
    match e {
        ParsedExpr::Name(text, line) => Some(Place { text, line: *line }),
        ParsedExpr::Chain(_, first, others) => {
            if others.is_empty() {
                plain_name(first)
            } else {
                None
            }
        }
        _ => None,
    }
}

/// Whether an expression with this first token is a name alone, in no parentheses.
pub fn is_bare(first: FirstToken, e: &ParsedExpr) -> bool
    ensures { result ≡ is_bare first (view e.now) }
{
    first.is_name && plain_name(e).is_some()
}
