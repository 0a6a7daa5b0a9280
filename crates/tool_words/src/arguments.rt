// The words behind a tool's, taken by `clap`.
ghost use Rattle.std.specs.Prelude.{◌≡◌, ◌++◌, [], true, false, map, IfOk, IsErrOf};
ghost use Rattle.std.specs.List.{list_all};
ghost use Rattle.std.specs.Str.{is_utf8};
ghost use Rattle.clap.specs.Words.{app_of, rule_of};
ghost use Rattle.tool_words.specs.declared.words.WordsError.TheVariants.{Usage};
ghost use Rattle.tool_words.specs.Arguments.{source_rules, action_for, option_rule, command_line, is_exact, faults, given};
ghost use Rattle.tool_words.specs.View.{form_view, setting_view, settings_view, texts_view, entry_view};

use crate::table::{Entry, Form, Setting};
use crate::values::Values;
use crate::words::WordsError;
use clap::{Arg, ArgAction, Command};
use std::alloc::{AllocError, Global};
use vlsi_base::Text;

/// The name of SOURCE.
pub(crate) const SOURCE: &str = "source";

fn action_for(form: Form) -> ArgAction
    ensures { result ≡ action_for (form_view form) }
{
    match form {
        Form::Flag => ArgAction::SetTrue,
        _ => ArgAction::Set,
    }
}

// An option is spelled by its letter, or else by its name.
fn option<'a>(alloc: Global, setting: Setting) -> Arg<'a>
    ensures { rule_of result ≡ option_rule (setting_view setting) }
{
    let option = Arg::new(alloc, setting.name)
        .action(action_for(setting.form))
        .required(setting.required);
    match setting.letter {
        Some(letter) => option.short(char::from(letter)),
        None => option.long(setting.name),
    }
}

// SOURCE, of a tool that has one.
fn source<'a>(alloc: Global, endings: &[&'static str]) -> Result<Vec<Arg<'a>>, AllocError>
    ensures { IfOk result (λ arguments. map rule_of arguments.items ≡ source_rules (texts_view endings.now)) }
{
    let mut arguments = Vec::new(alloc);
    match endings {
        [] => Ok(arguments),
        [_, ..] => {
            arguments.push(Arg::new(alloc, SOURCE).required(true))?;
            Ok(arguments)
        }
    }
}

fn options<'a>(
    alloc: Global,
    mut arguments: Vec<Arg<'a>>,
    settings: &[Setting],
) -> Result<Vec<Arg<'a>>, AllocError>
    ensures { IfOk result (λ all. map rule_of all.items
        ≡ map rule_of arguments.entry.items ++ map option_rule (settings_view settings.now)) }
{
    for setting in settings {
        arguments.push(option(alloc, *setting))?;
    }
    Ok(arguments)
}

// The command line of a tool. Help isn't one of its options.
fn command_line<'a>(alloc: Global, entry: Entry) -> Result<Command<'a>, AllocError>
    ensures { IfOk result (λ command. app_of command ≡ command_line (entry_view entry)) }
{
    let arguments = options(alloc, source(alloc, entry.endings)?, entry.settings)?;
    let command = Command::new(alloc, entry.word)
        .no_binary_name(true)
        .disable_help_flag(true);
    Ok(command.args(arguments)?)
}

/// What the words behind a tool's give for each of its arguments. They are spelled as in any program of today: in any order, `-l DIR` or
/// `-lDIR`, `--nodes 64` or `--nodes=64`, and `--` before a SOURCE that begins with `-`. `Usage` exactly where something is wrong with
/// them. It takes memory for what they give.
#[tactic(auto, unfolding(crate::specs::Arguments::faults, crate::specs::Arguments::given))]
pub fn taken<'a>(
    alloc: Global,
    entry: Entry,
    words: &'a [&'a str],
) -> Result<Values<'a>, WordsError>
    requires { is_exact (entry_view entry) ≡ true }
    ensures fine { IfOk result (λ values. faults (entry_view entry) (texts_view words.now) ≡ []) }
    ensures ok { IfOk result (λ values. values ≡ given (entry_view entry) (texts_view words.now)) }
    ensures usage { IsErrOf result Usage → faults (entry_view entry) (texts_view words.now) ≡ [] → ⊥ }
{
    let command = command_line(alloc, entry)?;
    let matches = command.try_get_matches_from(words)?;
    Ok(Values { matches })
}

fn as_text(word: &[u8]) -> Result<&str, WordsError>
    ensures ok { IfOk result (λ text. text.now ≡ word.now) }
    ensures utf8 { IfOk result (λ text. is_utf8 word.now ≡ true) }
    ensures usage { IsErrOf result Usage → is_utf8 word.now ≡ false }
{
    match str::from_utf8(word) {
        Ok(text) => Ok(text),
        Err(_) => Err(WordsError::Usage),
    }
}

/// The words as text. `Usage` exactly where one of them isn't UTF-8. It takes memory for the list of them.
pub fn texts<'a>(alloc: Global, words: &'a [Text]) -> Result<Vec<&'a str>, WordsError>
    ensures ok { IfOk result (λ texts. texts_view texts.items ≡ words.now) }
    ensures utf8 { IfOk result (λ texts. list_all is_utf8 words.now ≡ true) }
    ensures usage { IsErrOf result Usage → list_all is_utf8 words.now ≡ false }
{
    let mut texts = Vec::new(alloc);
    for word in words {
        let text = as_text(word.as_bytes())?;
        texts.push(text)?;
    }
    Ok(texts)
}
