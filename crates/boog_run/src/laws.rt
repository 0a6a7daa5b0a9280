// Laws: what follows of a netlist that is written. They cost nothing when they are called.
ghost use Rattle.boog_run.specs.Laws.{MappingAgrees, MappingIsTight, MappingIsSaid, SourceCanBeDeclared, NetlistIsWritable, NetlistIsShort, NetlistIsSmall};

use net_right::right_is_well_formed;
use vbe_writable::{
    catal_is_named, cell_can_be_written, machine_can_be_written, machine_is_named, names_are_short,
};
use vst_print::{written_is_a_sentence, written_says_the_netlist};

/// The netlist that `boog` writes is well formed for the machine of its source and behaves as this does. It is tight: no usable cell of
/// the library could stand for two of its gates. And its file, where names, numbers and bits are within the limits of structural texts,
/// is a sentence of their grammar which says the netlist.
pub fn boog_law()
    ensures agrees { MappingAgrees }
    ensures tight { MappingIsTight }
    ensures said { MappingIsSaid }
{
    right_is_well_formed();
    machine_is_named();
    catal_is_named();
    machine_can_be_written();
    cell_can_be_written();
    written_is_a_sentence();
    written_says_the_netlist();
}

/// A netlist for a machine that can be declared, and of a library that is read, can be written, its names are short, and it has few
/// instances and ports. The machine of a text can be declared.
pub fn netlist_law()
    ensures declared { SourceCanBeDeclared }
    ensures writable { NetlistIsWritable }
    ensures short { NetlistIsShort }
    ensures small { NetlistIsSmall }
{
    machine_is_named();
    catal_is_named();
    machine_can_be_written();
    cell_can_be_written();
    names_are_short();
}
