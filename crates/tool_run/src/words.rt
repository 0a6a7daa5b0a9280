// The table of tools, and the commands of those beside `flow` and `gen`.
ghost use Rattle.std.specs.Prelude.{◌≡◌, Some, None, IfOk, IsErrOf, map};
ghost use Rattle.tool_words.specs.declared.words.WordsError.TheVariants.{Usage};
ghost use Rattle.tool_words.specs.Spelling.{tool_named, command_by};
ghost use Rattle.tool_words.specs.View.{entry_view};
ghost use Rattle.tool_run.specs.Tools.{tools, entries, command_of};
ghost use Rattle.tool_run.specs.Laws.{ToolComesFirst};

use area_run::{AREA_ENTRY, AreaCommand};
use asimut_run::{ASIMUT_ENTRY, AsimutTask};
use boog_run::{BOOG_ENTRY, BoogCommand};
use boom_run::{BOOM_ENTRY, BoomCommand};
use cougar_run::{COUGAR_ENTRY, CougarCommand};
use druc_run::{DRUC_ENTRY, DrucCommand};
use flatbeh_run::{FLATBEH_ENTRY, FlatbehCommand};
use flow_words::{FLOW_ENTRY, GEN_ENTRY};
use fmi_run::{FMI_ENTRY, FmiCommand};
use loon_run::{LOON_ENTRY, LoonCommand};
use lvx_run::{LVX_ENTRY, LvxCommand};
use nero_run::{NERO_ENTRY, NeroCommand};
use ocp_run::{OCP_ENTRY, OcpCommand};
use proof_run::{PROOF_ENTRY, ProofCommand};
use rip_run::{RIP_ENTRY, RipCommand};
use s2r_run::{S2R_ENTRY, S2rCommand};
use scapin_run::{SCAPIN_ENTRY, ScapinCommand};
use std::alloc::Global;
use syf_run::{SYF_ENTRY, SyfCommand};
use tool_words::{Entry, Words, WordsError, is_same, read_asked};
use vlsi_base::Text;

/// What the words of a command ask for, of the tools beside `flow` and `gen`.
#[derive(Drop)]
pub enum Command {
    Syf(SyfCommand),
    Boom(BoomCommand),
    Boog(BoogCommand),
    Loon(LoonCommand),
    Ocp(OcpCommand),
    Nero(NeroCommand),
    Asimut(AsimutTask),
    Cougar(CougarCommand),
    Lvx(LvxCommand),
    Druc(DrucCommand),
    Proof(ProofCommand),
    Flatbeh(FlatbehCommand),
    S2r(S2rCommand),
    Scapin(ScapinCommand),
    Fmi(FmiCommand),
    Rip(RipCommand),
    Area(AreaCommand),
}

const ENTRIES: &[Entry] = &[
    FLOW_ENTRY,
    GEN_ENTRY,
    SYF_ENTRY,
    BOOM_ENTRY,
    BOOG_ENTRY,
    LOON_ENTRY,
    OCP_ENTRY,
    NERO_ENTRY,
    ASIMUT_ENTRY,
    COUGAR_ENTRY,
    LVX_ENTRY,
    DRUC_ENTRY,
    PROOF_ENTRY,
    FLATBEH_ENTRY,
    S2R_ENTRY,
    SCAPIN_ENTRY,
    FMI_ENTRY,
    RIP_ENTRY,
    AREA_ENTRY,
];

/// How all tools are called, in the order of the usage line.
pub(crate) fn entries() -> &'static [Entry]
    ensures { map entry_view result.now ≡ entries }
{
    ENTRIES
}

// The command of the tool with this word that the words behind it spell.
fn read_behind(alloc: Global, tool: &[u8], words: &[Text]) -> Result<Command, WordsError>
    ensures ok { IfOk result (λ c. command_by (tool_named tools tool.now) words.now ≡ Some c) }
    ensures usage { IsErrOf result Usage → command_by (tool_named tools tool.now) words.now ≡ None }
{
    if is_same(b"syf", tool) {
        return Ok(Command::Syf(read_asked(alloc, SYF_ENTRY, words)?));
    }
    if is_same(b"boom", tool) {
        return Ok(Command::Boom(read_asked(alloc, BOOM_ENTRY, words)?));
    }
    if is_same(b"boog", tool) {
        return Ok(Command::Boog(read_asked(alloc, BOOG_ENTRY, words)?));
    }
    if is_same(b"loon", tool) {
        return Ok(Command::Loon(read_asked(alloc, LOON_ENTRY, words)?));
    }
    if is_same(b"ocp", tool) {
        return Ok(Command::Ocp(read_asked(alloc, OCP_ENTRY, words)?));
    }
    if is_same(b"nero", tool) {
        return Ok(Command::Nero(read_asked(alloc, NERO_ENTRY, words)?));
    }
    if is_same(b"asimut", tool) {
        return Ok(Command::Asimut(read_asked(alloc, ASIMUT_ENTRY, words)?));
    }
    if is_same(b"cougar", tool) {
        return Ok(Command::Cougar(read_asked(alloc, COUGAR_ENTRY, words)?));
    }
    if is_same(b"lvx", tool) {
        return Ok(Command::Lvx(read_asked(alloc, LVX_ENTRY, words)?));
    }
    if is_same(b"druc", tool) {
        return Ok(Command::Druc(read_asked(alloc, DRUC_ENTRY, words)?));
    }
    if is_same(b"proof", tool) {
        return Ok(Command::Proof(read_asked(alloc, PROOF_ENTRY, words)?));
    }
    if is_same(b"flatbeh", tool) {
        return Ok(Command::Flatbeh(read_asked(alloc, FLATBEH_ENTRY, words)?));
    }
    if is_same(b"s2r", tool) {
        return Ok(Command::S2r(read_asked(alloc, S2R_ENTRY, words)?));
    }
    if is_same(b"scapin", tool) {
        return Ok(Command::Scapin(read_asked(alloc, SCAPIN_ENTRY, words)?));
    }
    if is_same(b"fmi", tool) {
        return Ok(Command::Fmi(read_asked(alloc, FMI_ENTRY, words)?));
    }
    if is_same(b"rip", tool) {
        return Ok(Command::Rip(read_asked(alloc, RIP_ENTRY, words)?));
    }
    if is_same(b"area", tool) {
        return Ok(Command::Area(read_asked(alloc, AREA_ENTRY, words)?));
    }
    Err(WordsError::Usage)
}

/// Takes words apart: the word of one of these tools, and then what its entry has. `Usage` exactly where they spell no command of
/// theirs. It reads no file, and takes memory for what it reads and answers.
pub fn read_command(alloc: Global, words: &Words) -> Result<Command, WordsError>
    ensures ok { IfOk result (λ c. command_of words.now ≡ Some c) }
    ensures usage { IsErrOf result Usage → command_of words.now ≡ None }
{
    match words.as_slice().split_first() {
        Some((tool, rest)) => read_behind(alloc, tool.as_bytes(), rest),
        None => Err(WordsError::Usage),
    }
}

/// A law, erased at run time: the first of the words that spell a command is the word of the command's tool.
pub fn words_law()
    ensures { ToolComesFirst }
{}
