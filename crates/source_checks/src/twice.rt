// Names that are declared twice.
ghost use Rattle.std.specs.Prelude.{◌≡◌, []};
ghost use Rattle.std.specs.Option.{option_copied};
ghost use Rattle.source_checks.specs.Checks.{first_repeated};

use crate::symbol_table::{Symbol, SymbolTable};

/// The first declaration of a name that an earlier one declares.
pub fn repeated(table: &SymbolTable) -> Option<&Symbol>
    ensures { option_copied result ≡ first_repeated [] table.now }
{
    let symbols = table.as_slice();
    for k in 0..symbols.len() {
        let symbol = &symbols[k];
        if table.place(symbol.text.as_bytes()) != Some(k) {
            return Some(symbol);
        }
    }
    None
}
