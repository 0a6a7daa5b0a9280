// The machine with each free bit 1, over the names of that with each 0.
ghost use Rattle.std.specs.Prelude.{◌≡◌, ◌<◌, ◌^◌, map, length, IfOk};
ghost use Rattle.std.specs.List.{All};
ghost use Rattle.machine_core.specs.Order.{AllDifferent, In};
ghost use Rattle.machine_core.specs.View.{equation_view};
ghost use Rattle.source_checks.specs.Elaboration.{IsMachineOf, definitions};
ghost use Rattle.source_checks.specs.Symbols.{symbols, all_names};
ghost use Rattle.source_bits.specs.Driven.{driven_view, numbered_definition};
ghost use Rattle.vlsi_model.specs.Numbered.{name_at, HasVars};
ghost use Rattle.machine_free.specs.Free.{AreFree};
ghost use Rattle.vbe_free.specs.Second.{IsFirstOf, equation_for, IsFound, AreOver, AreOnes};

use crate::copying::with_equations;
use bool_expr::renumbered;
use machine_core::{Equation, Machine};
use source_bits::{DrivenBit, Numbers, driven_bits};
use source_checks::{DesignFile, SymbolTable};
use std::alloc::{AllocError, Global};
use vlsi_base::Name;
use vlsi_model::var_numbers;

/// The names of bits that are driven.
fn driven_names(
    alloc: Global,
    numbers: &Numbers,
    driven: &[DrivenBit],
) -> Result<Vec<Name>, AllocError>
    requires { All (λ d. d.bit < length (all_names numbers.now)) driven.now }
    ensures { IfOk result (λ names. names.items ≡ map (λ d. name_at (all_names numbers.now) d.bit) driven.now) }
{
    let mut names = Vec::new(alloc);
    for bit in driven {
        names.push(numbers.name(alloc, bit.bit)?)?;
    }
    Ok(names)
}

/// The equation of a name, of what the driven bits have the value of.
fn equation_for(
    alloc: Global,
    numbers: &Numbers,
    driven: &[DrivenBit],
    places: &[u32],
    vars: &[u32],
    name: &Name,
) -> Result<Equation, AllocError>
    requires texts { AllDifferent (map (λ s. s.text) numbers.now) }
    requires over { AreOver (map driven_view driven.now) vars.now }
    requires found { IsFound (all_names numbers.now) (map driven_view driven.now) places.now name.now }
    ensures { IfOk result (λ e. equation_view e
        ≡ equation_for (all_names numbers.now) (map driven_view driven.now) places.now vars.now name.now) }
{
    let number = numbers.number(name.text.as_bytes(), name.bit);
    let place = places[number as usize];
    let expr = renumbered(alloc, &driven[place as usize].expr, vars)?;
    let name = name.copy(alloc)?;
    Ok(Equation { name, expr })
}

/// The equations of the same names, in their order.
fn equations_for(
    alloc: Global,
    numbers: &Numbers,
    driven: &[DrivenBit],
    places: &[u32],
    vars: &[u32],
    equations: &[Equation],
) -> Result<Vec<Equation>, AllocError>
    requires texts { AllDifferent (map (λ s. s.text) numbers.now) }
    requires over { AreOver (map driven_view driven.now) vars.now }
    requires found { All (λ e. IsFound (all_names numbers.now) (map driven_view driven.now) places.now e.name) equations.now }
    ensures { IfOk result (λ made. map equation_view made.items
        ≡ map (λ e. equation_for (all_names numbers.now) (map driven_view driven.now) places.now vars.now e.name) equations.now) }
{
    let mut made = Vec::new(alloc);
    for equation in equations {
        made.push(equation_for(alloc, numbers, driven, places, vars, &equation.name)?)?;
    }
    Ok(made)
}

/// What the design says of the names of a machine's equations.
fn equations_of(
    alloc: Global,
    numbers: &Numbers,
    driven: &[DrivenBit],
    low: &Machine,
    design: &DesignFile,
) -> Result<Vec<Equation>, AllocError>
    requires first { IsFirstOf low.now design.now }
    requires known { numbers.now ≡ symbols design.now }
    requires driven { map driven_view driven.now ≡ map (numbered_definition (all_names (symbols design.now))) (definitions design.now) }
    ensures { IfOk result (λ made. AreOnes low.now design.now (map equation_view made.items)) }
{
    // Of what is declared, the numbers say all that is needed.
    let _ = design;
    let names = driven_names(alloc, numbers, driven)?;
    let places = var_numbers(alloc, numbers, &names)?;
    let vars = var_numbers(alloc, numbers, low.vars().as_slice())?;
    equations_for(
        alloc,
        numbers,
        driven,
        &places,
        &vars,
        low.equations().as_slice(),
    )
}

/// The machine of a design in which each free bit is 1, over the names of that in which each is 0: the two agree in all but what is said of
/// outputs that are left free. Takes memory for the machine.
pub fn with_ones(alloc: Global, low: &Machine, design: &DesignFile) -> Result<Machine, AllocError>
    requires first { IsFirstOf low.now design.now }
    requires few { length (all_names (symbols design.now)) < 2 ^ 32 }
    ensures machine { IfOk result (λ high. IsMachineOf design.now high) }
    ensures free { IfOk result (λ high. AreFree low.now high) }
{
    let table = SymbolTable::new(alloc, design)?;
    let numbers = Numbers::new(alloc, table)?;
    let driven = driven_bits(alloc, &numbers, design.statements.as_slice())?;
    let equations = equations_of(alloc, &numbers, &driven, low, design)?;
    with_equations(alloc, low, design, equations)
}
