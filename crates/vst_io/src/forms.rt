// Faults of declarations.
ghost use Rattle.std.specs.Prelude.{◌≡◌, ◌&&◌};
ghost use Rattle.std.specs.List.{flat_map};
ghost use Rattle.source_checks.specs.Lines.{first_line};
ghost use Rattle.vst_io.specs.Faults.{declaration_widths, all_widths, is_in_bit, port_form, declaration_forms, all_forms};

use source_checks::{declared_fault, is_resolved, ports_fault, supply_fault};
use vlsi_base::{Mode, PortGroup, TypeWord};
use vst_text::{Declaration, StructuralFile};

fn declaration_width(declaration: &Declaration) -> Option<u32>
    ensures { result ≡ first_line (declaration_widths declaration.now) }
{
    match declaration {
        Declaration::Component(component) => ports_fault(component.ports.as_slice()),
        Declaration::Signals(signals) => declared_fault(signals.kind.range),
    }
}

fn declaration_widths(declarations: &[Declaration]) -> Option<u32>
    ensures { result ≡ first_line (flat_map declaration_widths declarations.now) }
{
    for declaration in declarations {
        if let Some(line) = declaration_width(declaration) {
            return Some(line);
        }
    }
    None
}

/// The line of the first range of a declaration whose bounds don't stand in the order of its word.
#[tactic(auto, using(source_checks::proofs::FirstLines::first_line_append))]
pub fn width_fault(file: &StructuralFile) -> Option<u32>
    ensures { result ≡ first_line (all_widths file.now) }
{
    match ports_fault(file.entity.ports.as_slice()) {
        Some(line) => Some(line),
        None => declaration_widths(file.declarations.as_slice()),
    }
}

/// Whether the ports are inputs of one bit.
fn is_in_bit(group: &PortGroup) -> bool
    ensures { result ≡ is_in_bit group.now }
{
    group.mode == Mode::In && group.kind.word == TypeWord::Bit && group.kind.range.is_none()
}

/// The first line at fault in a declaration of ports, which may be the entity's own.
#[tactic(auto, using(source_checks::proofs::FirstLines::first_line_append))]
fn port_form(own: bool, group: &PortGroup) -> Option<u32>
    ensures { result ≡ first_line (port_form own group.now) }
{
    if let Some(line) = supply_fault(!own || is_in_bit(group), group.names.as_slice()) {
        return Some(line);
    }
    if group.mode == Mode::Inout {
        return Some(group.mode_line);
    }
    if is_resolved(group.kind.word) {
        return Some(group.kind.line);
    }
    None
}

fn port_forms(own: bool, groups: &[PortGroup]) -> Option<u32>
    ensures { result ≡ first_line (flat_map (port_form own) groups.now) }
{
    for group in groups {
        if let Some(line) = port_form(own, group) {
            return Some(line);
        }
    }
    None
}

fn declaration_form(declaration: &Declaration) -> Option<u32>
    ensures { result ≡ first_line (declaration_forms declaration.now) }
{
    match declaration {
        Declaration::Component(component) => port_forms(false, component.ports.as_slice()),
        Declaration::Signals(signals) => {
            if is_resolved(signals.kind.word) {
                Some(signals.kind.line)
            } else {
                None
            }
        }
    }
}

fn declaration_forms(declarations: &[Declaration]) -> Option<u32>
    ensures { result ≡ first_line (flat_map declaration_forms declarations.now) }
{
    for declaration in declarations {
        if let Some(line) = declaration_form(declaration) {
            return Some(line);
        }
    }
    None
}

/// The line of the first form of a declaration that is left out.
#[tactic(auto, using(source_checks::proofs::FirstLines::first_line_append))]
pub fn form_fault(file: &StructuralFile) -> Option<u32>
    ensures { result ≡ first_line (all_forms file.now) }
{
    match port_forms(true, file.entity.ports.as_slice()) {
        Some(line) => Some(line),
        None => declaration_forms(file.declarations.as_slice()),
    }
}
