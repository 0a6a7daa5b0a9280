// What a structural text declares, found by its name, and the models that it may use.
ghost use Rattle.std.specs.Prelude.{◌≡◌, map, is_some, IfOk};
ghost use Rattle.std.specs.Option.{option_copied};
ghost use Rattle.vlsi_base.specs.Names.{scalar};
ghost use Rattle.net_core.specs.Places.{NoneTwice, position_of};
ghost use Rattle.net_core.specs.Checks.{pins_named};
ghost use Rattle.vst_io.specs.Nets.{components, nets, pins, pins_of};

use net_core::{ModelPin, ModelPins, Roll, model_names, pins_of};
use source_checks::SymbolTable;
use std::alloc::{AllocError, Global};
use std::marker::Model;
use vlsi_base::{Name, NameIndex, Text};
use vst_text::{Declaration, StructuralFile};

/// The names of the declared components, and the pins of each.
#[derive(Drop)]
pub struct ComponentTable {
    pub names: Vec<Name>,
    pub pins: Vec<SymbolTable>,
}

/// The declared components, in file order. Takes memory for their names and pins.
pub fn components(alloc: Global, declarations: &[Declaration]) -> Result<ComponentTable, AllocError>
    ensures names { IfOk result (λ c. c.names.items ≡ map (λ d. scalar d.name) (components declarations.now)) }
    ensures pins { IfOk result (λ c. c.pins.items ≡ map pins (components declarations.now)) }
{
    let mut names = Vec::new(alloc);
    let mut pins = Vec::new(alloc);
    for declaration in declarations {
        if let Declaration::Component(component) = declaration {
            names.push(Name::scalar(component.name.copy(alloc)?))?;
            let table = SymbolTable::empty(alloc);
            pins.push(table.with_ports(alloc, component.ports.as_slice())?)?;
        }
    }
    Ok(ComponentTable { names, pins })
}

/// The declared ports and signals, in file order.
fn nets(alloc: Global, file: &StructuralFile) -> Result<SymbolTable, AllocError>
    ensures { IfOk result (λ table. table ≡ nets file.now) }
{
    let mut table = SymbolTable::empty(alloc).with_ports(alloc, file.entity.ports.as_slice())?;
    for declaration in file.declarations.as_slice() {
        if let Declaration::Signals(signals) = declaration {
            table = table.with_signals(alloc, signals)?;
        }
    }
    Ok(table)
}

/// A text with the table of models that it may use. Contracts see both.
#[derive(Drop)]
pub struct Known<'a> {
    file: &'a StructuralFile,
    table: &'a [ModelPins],
    nets: SymbolTable,
    places: NameIndex<'a>,
    pins: &'a [SymbolTable],
    models: Roll,
}

impl<'a> Model for Known<'a> {
    ghost use Rattle.vst_io.specs.Known.{Source, IsKnown};

    ghost Value = { Source };

    ghost view = { λ a. record { table = a.table.now; file = a.file.now } };

    ghost invariant = { λ a. IsKnown a.table.now a.file.now a.nets a.places a.pins.now a.models };
}

impl<'a> Known<'a> {
    /// What is looked up of a text, whose components these are. Takes memory for its nets and the names of components and models.
    pub fn new(
        alloc: Global,
        file: &'a StructuralFile,
        table: &'a [ModelPins],
        declared: &'a ComponentTable,
    ) -> Result<Self, AllocError>
        requires once { NoneTwice (map (λ m. m.model) table.now) }
        requires names { declared.now.names.items ≡ map (λ d. scalar d.name) (components file.now.declarations) }
        requires pins { declared.now.pins.items ≡ map pins (components file.now.declarations) }
        ensures { IfOk result (λ k. k ≡ record { table = table.now; file = file.now }) }
    {
        let mut places = NameIndex::new(alloc);
        places.insert_all(&declared.names)?;
        Ok(Known {
            file,
            table,
            nets: nets(alloc, file)?,
            places,
            pins: &declared.pins,
            models: model_names(alloc, table)?,
        })
    }

    /// The text.
    pub fn file(&self) -> &'a StructuralFile
        ensures { result.now ≡ self.now.file }
    {
        self.file
    }

    /// The declared ports and signals, in file order.
    pub fn nets(&self) -> &SymbolTable
        ensures { result.now ≡ nets self.now.file }
    {
        &self.nets
    }

    /// The pins of the component of this name, where one is declared.
    pub fn component(&self, name: &'a Text) -> Option<&'a SymbolTable>
        ensures { option_copied result ≡ pins_of self.now.file.declarations name.now }
    {
        match self.places.find(name.as_bytes(), None) {
            Some(place) => self.pins.get(place),
            None => None,
        }
    }

    /// Whether the table lists a model of this name.
    pub fn lists(&self, name: &Text) -> bool
        ensures { result ≡ is_some (position_of (map (λ m. m.model) self.now.table) name.now) }
    {
        self.models.place(name).is_some()
    }

    /// The pins of the model of this name; none where the table doesn't list it.
    pub fn model(&self, name: &Text) -> &'a [ModelPin]
        ensures { result.now ≡ pins_named self.now.table name.now }
    {
        pins_of(&self.models, self.table, name)
    }
}

/// The names of pins, in their order. Takes memory for them.
pub fn pin_names(alloc: Global, pins: &[ModelPin]) -> Result<Vec<Name>, AllocError>
    ensures { IfOk result (λ names. names.items ≡ map (λ p. p.name) pins.now) }
{
    let mut names = Vec::new(alloc);
    for pin in pins {
        names.push(pin.name.copy(alloc)?)?;
    }
    Ok(names)
}
