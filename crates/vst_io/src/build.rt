// Making netlists.
ghost use Rattle.std.specs.Prelude.{◌≡◌, ◌++◌, [], ◌<◌, ◌^◌, None, map, length, IfOk, OnOk, IfErr};
ghost use Rattle.std.specs.List.{All};
ghost use Rattle.std.specs.List.Sorted.{IsPermutation};
ghost use Rattle.std.specs.FinMap.{get};
ghost use Rattle.vlsi_base.specs.declared.name.Name.{Name};
ghost use Rattle.vlsi_base.specs.NamePlaces.{last_place};
ghost use Rattle.machine_core.specs.Order.{AllDifferent};
ghost use Rattle.net_core.specs.declared.error.BuildError.TheVariants.{Memory};
ghost use Rattle.net_core.specs.Places.{IsThere};
ghost use Rattle.net_core.specs.Netlist.{AreInOrder};
ghost use Rattle.net_core.specs.Joins.{draft_terminals};
ghost use Rattle.net_core.specs.Checks.{IsPinTable, pins_named};
ghost use Rattle.vst_io.specs.Nets.{nets, port_bits, instance_of};
ghost use Rattle.vst_io.specs.Faults.{first_label_again, terminal_count};
ghost use Rattle.vst_io.specs.Checked.{IsChecked};
ghost use Rattle.vst_io.specs.Text.{IsNetlistOf};
ghost use Rattle.vst_io.specs.Drafts.{joins_of, with_instances, IsAgain, IsLabelFault};
ghost use Rattle.vst_text.specs.declared.file.InstanceStatement.{InstanceStatement};

use crate::checking::named;
use crate::known::{Known, pin_names};
use crate::linking::{Link, links};
use net_core::{BuildError, Builder, Netlist};
use std::alloc::{AllocError, Global};
use vlsi_base::{FaultKind, Name, NameIndex, Names, Port, Ports, ReadError};
use vst_text::InstanceStatement;

/// Port bits in the order of names.
fn sorted(ports: Vec<Port>) -> Result<Vec<Port>, AllocError>
    requires { AllDifferent (map (λ p. p.name) ports.items) }
    ensures moved { IfOk result (λ sorted. IsPermutation ports.items sorted.items) }
    ensures ordered { IfOk result (λ sorted. AreInOrder (map (λ p. p.name) sorted.items)) }
{
    let mut sorted = ports;
    sorted.sort_by(|a, b| a.name.compare(&b.name))?;
    Ok(sorted)
}

/// Why an instance isn't added: its label is that of an earlier one.
fn again(alloc: Global, instance: &InstanceStatement, error: BuildError) -> ReadError
    ensures { IsAgain instance.now error result }
{
    match error {
        BuildError::Memory => ReadError::Memory,
        BuildError::Twice | BuildError::Unknown => {
            match named(alloc, FaultKind::Twice, instance.line, &instance.label) {
                Ok(error) => error,
                Err(_) => ReadError::Memory,
            }
        }
    }
}

/// Adds the instances of a text, each with the pins of its model.
fn add_instances(alloc: Global, builder: &mut Builder, known: &Known) -> Result<(), ReadError>
    requires table { IsPinTable known.now.table }
    requires none { builder.old.instances ≡ [] }
    requires few { length builder.old.ports ≡ length (port_bits (nets known.now.file)) }
    requires room { terminal_count known.now.table known.now.file < 2 ^ 32 }
    requires maps { (i : InstanceStatement) → IsThere known.now.file.instances i → 0 < length (pins_named known.now.table i.component) }
    ensures added { OnOk result (builder.new ≡ with_instances builder.old (map (instance_of known.now.table) known.now.file.instances)) }
    ensures once { OnOk result (first_label_again [] known.now.file.instances ≡ None) }
    ensures refused { IfErr result (λ e. IsLabelFault known.now.file.instances e) }
{
    for instance in known.file().instances.as_slice() {
        let pins = pin_names(alloc, known.model(&instance.component))?;
        let added = builder.add(
            alloc,
            &instance.label,
            &instance.component,
            &Names::new(pins),
        );
        if let Err(error) = added {
            return Err(again(alloc, instance, error));
        }
    }
    Ok(())
}

/// Where the bit of a net stands last among links.
fn places<'l>(alloc: Global, links: &'l [Link]) -> Result<NameIndex<'l>, AllocError>
    ensures { IfOk result (λ index. (n : Name) → get index n ≡ last_place (map (λ l. l.1) links.now) n) }
{
    let mut index = NameIndex::new(alloc);
    for (place, link) in links.iter().enumerate() {
        index.insert(link.1.text.as_bytes(), link.1.bit, place)?;
    }
    Ok(index)
}

/// Joins each terminal with the last one that stands for the same bit of a net.
fn join_links<'l>(
    builder: &mut Builder,
    links: &'l [Link],
    index: &NameIndex<'l>,
) -> Result<(), BuildError>
    requires there { All (λ l. IsThere (draft_terminals builder.old) l.0) links.now }
    requires index { (n : Name) → get index.now n ≡ last_place (map (λ l. l.1) links.now) n }
    ensures joined { OnOk result (builder.new ≡ record builder.old { joins = builder.old.joins ++ joins_of links.now }) }
    ensures refused { IfErr result (λ e. e ≡ Memory) }
{
    for link in links {
        if let Some(place) = index.find(link.1.text.as_bytes(), link.1.bit) {
            builder.join(&links[place].0, &link.0)?;
        }
    }
    Ok(())
}

/// Joins the terminals that stand for the same bit of a net. Takes memory for an index of the links.
fn join_all(alloc: Global, builder: &mut Builder, links: &[Link]) -> Result<(), AllocError>
    requires there { All (λ l. IsThere (draft_terminals builder.old) l.0) links.now }
    ensures joined { OnOk result (builder.new ≡ record builder.old { joins = builder.old.joins ++ joins_of links.now }) }
{
    let index = places(alloc, links)?;
    match join_links(builder, links, &index) {
        Ok(()) => Ok(()),
        Err(_) => Err(AllocError),
    }
}

/// The netlist of a text that has passed its checks, with these bits of ports. It is refused where two instances have one label.
pub fn netlist_of(alloc: Global, known: &Known, ports: Vec<Port>) -> Result<Netlist, ReadError>
    requires table { IsPinTable known.now.table }
    requires checked { IsChecked known.now.table known.now.file }
    requires ports { ports.items ≡ port_bits (nets known.now.file) }
    requires some { (i : InstanceStatement) → IsThere known.now.file.instances i → 0 < length i.associations }
    ensures netlist { IfOk result (λ n. IsNetlistOf known.now.table known.now.file n) }
    ensures once { OnOk result (first_label_again [] known.now.file.instances ≡ None) }
    ensures refused { IfErr result (λ e. IsLabelFault known.now.file.instances e) }
{
    let links = links(alloc, known, &ports)?;
    let name = known.file().entity.name.copy(alloc)?;
    let mut builder = Builder::begin(alloc, name, Ports::new(sorted(ports)?))?;
    add_instances(alloc, &mut builder, known)?;
    join_all(alloc, &mut builder, &links)?;
    let netlist = builder.finish(alloc)?;
    Ok(netlist)
}
