// The usage lines, from the table of tools.
ghost use Rattle.std.specs.Prelude.{◌≡◌, ◌++◌, map, OnOk, IfOk, option_map};
ghost use Rattle.tool_words.specs.Usage.{source_usage, more_endings, value_usage, option_usage, setting_usage, settings_usage, entry_usage, more_words, tool_words, entry_of, of_words, usage_of};
ghost use Rattle.tool_words.specs.View.{form_view, setting_view, settings_view, texts_view, entry_view};

use crate::table::{Entry, Form, Setting};
use crate::words::{Words, is_same};
use std::alloc::{AllocError, Global};
use vlsi_base::FileBytes;

// SOURCE, with the endings of which it has one, and bars between.
fn source(out: &mut FileBytes, endings: &[&'static str]) -> Result<(), AllocError>
    ensures { OnOk result (out.new ≡ out.old ++ source_usage (texts_view endings.now)) }
{
    let Some((first, rest)) = endings.split_first() else {
        return Ok(());
    };
    out.append(b" SOURCE")?;
    out.append(first.as_bytes())?;
    more_endings(out, rest)
}

fn more_endings(out: &mut FileBytes, endings: &[&'static str]) -> Result<(), AllocError>
    ensures { OnOk result (out.new ≡ out.old ++ more_endings (texts_view endings.now)) }
{
    for ending in endings {
        out.append(b"|")?;
        out.append(ending.as_bytes())?;
    }
    Ok(())
}

fn value(out: &mut FileBytes, form: Form, value: &str) -> Result<(), AllocError>
    ensures { OnOk result (out.new ≡ out.old ++ value_usage (form_view form) value.now) }
{
    match form {
        Form::Flag => Ok(()),
        Form::Ending(ending) => {
            out.append(b" ")?;
            out.append(value.as_bytes())?;
            out.append(ending.as_bytes())
        }
        _ => {
            out.append(b" ")?;
            out.append(value.as_bytes())
        }
    }
}

// A letter behind one dash, or the name behind two.
fn option(out: &mut FileBytes, letter: Option<u8>, name: &str) -> Result<(), AllocError>
    ensures { OnOk result (out.new ≡ out.old ++ option_usage letter name.now) }
{
    match letter {
        Some(letter) => out.append(&[b'-', letter]),
        None => {
            out.append(b"--")?;
            out.append(name.as_bytes())
        }
    }
}

// What may be left out stands in brackets.
fn setting(out: &mut FileBytes, setting: Setting) -> Result<(), AllocError>
    ensures { OnOk result (out.new ≡ out.old ++ setting_usage (setting_view setting)) }
{
    if setting.required {
        out.append(b" ")?;
        option(out, setting.letter, setting.name)?;
        value(out, setting.form, setting.value)
    } else {
        out.append(b" [")?;
        option(out, setting.letter, setting.name)?;
        value(out, setting.form, setting.value)?;
        out.append(b"]")
    }
}

fn settings(out: &mut FileBytes, items: &[Setting]) -> Result<(), AllocError>
    ensures { OnOk result (out.new ≡ out.old ++ settings_usage (settings_view items.now)) }
{
    for item in items {
        setting(out, *item)?;
    }
    Ok(())
}

// A tool's word, its SOURCE and its options.
fn entry(out: &mut FileBytes, entry: Entry) -> Result<(), AllocError>
    ensures { OnOk result (out.new ≡ out.old ++ entry_usage (entry_view entry)) }
{
    out.append(entry.word.as_bytes())?;
    source(out, entry.endings)?;
    settings(out, entry.settings)
}

// The tools' words, with bars between.
fn all_tools(out: &mut FileBytes, entries: &[Entry]) -> Result<(), AllocError>
    ensures { OnOk result (out.new ≡ out.old ++ tool_words (map entry_view entries.now)) }
{
    let Some((first, rest)) = entries.split_first() else {
        return Ok(());
    };
    out.append(first.word.as_bytes())?;
    more_words(out, rest)
}

fn more_words(out: &mut FileBytes, entries: &[Entry]) -> Result<(), AllocError>
    ensures { OnOk result (out.new ≡ out.old ++ more_words (map entry_view entries.now)) }
{
    for entry in entries {
        out.append(b"|")?;
        out.append(entry.word.as_bytes())?;
    }
    Ok(())
}

fn entry_of(entries: &[Entry], word: &[u8]) -> Option<Entry>
    ensures { option_map entry_view result ≡ entry_of (map entry_view entries.now) word.now }
{
    for entry in entries {
        if is_same(entry.word.as_bytes(), word) {
            return Some(*entry);
        }
    }
    None
}

fn of_words(entries: &[Entry], words: &Words) -> Option<Entry>
    ensures { option_map entry_view result ≡ of_words (map entry_view entries.now) words.now }
{
    match words.as_slice() {
        [] => None,
        [tool, ..] => entry_of(entries, tool.as_bytes()),
    }
}

/// The line on wrong words: of the tool that the first word names, or of all these tools. It takes memory for the line.
pub fn usage_line(alloc: Global, entries: &[Entry], words: &Words) -> Result<FileBytes, AllocError>
    ensures { IfOk result (λ bytes. bytes ≡ usage_of (map entry_view entries.now) words.now) }
{
    let mut line = FileBytes::from_bytes(alloc, b"usage: alliance ")?;
    match of_words(entries, words) {
        Some(tool) => entry(&mut line, tool)?,
        None => {
            all_tools(&mut line, entries)?;
            line.append(b" ARGUMENTS")?;
        }
    }
    line.append(b"\n")?;
    Ok(line)
}
