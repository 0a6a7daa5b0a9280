// What is given for SOURCE and for an option, where it is of the form that the table has.
ghost use Rattle.std.specs.Prelude.{◌≡◌, Some, None, option_map, if◌then◌else◌, IfOk, IsErrOf};
ghost use Rattle.std.specs.List.{list_any};
ghost use Rattle.clap.specs.Words.{first_of};
ghost use Rattle.tool_words.specs.declared.words.WordsError.TheVariants.{Usage};
ghost use Rattle.tool_words.specs.Values.{has_ending, text_by, source_of, text_of, number_within, number_by, default_of, is_set, number_of, number_if_given, encoding_by, encoding_of};
ghost use Rattle.tool_words.specs.View.{form_view, setting_view, texts_view};

use crate::arguments::SOURCE;
use crate::table::{ENCODING, Form, Setting};
use crate::words::{WordsError, is_same};
use clap::ArgMatches;
use std::alloc::Global;
use std::marker::Model;
use vlsi_base::{FileName, read_u64};

// The most digits of a number.
const MOST_DIGITS: usize = 10;

/// What the words give for SOURCE and for each option of a tool.
#[derive(Drop)]
pub struct Values<'a> {
    pub(crate) matches: ArgMatches<'a>,
}

impl<'a> Model for Values<'a> {
    ghost use Rattle.tool_words.specs.Arguments.{Given};
    ghost use Rattle.tool_words.specs.Values.{found};

    ghost Value = { Given };

    ghost view = { λ a. found a.matches };
}

/// How the states of a state machine get their codes.
#[derive(Clone, Copy, PartialEq, Eq)]
pub enum Encoding {
    /// One bit for each state.
    OneHot,
    /// Numbers shuffled by random words.
    Random,
    /// Numbers that bring states near each other of which one leads to the other.
    Adjacent,
}

/// The text that is given for an argument.
pub fn given<'a>(values: &Values<'a>, name: &str) -> Option<&'a str>
    ensures { option_map (λ text. text.now) result ≡ first_of name.now values.now }
{
    values.matches.get_str(name)
}

/// Whether a text ends so. Takes no memory.
pub fn has_ending(text: &[u8], ending: &str) -> bool
    ensures { result ≡ has_ending text.now ending.now }
{
    text.ends_with(ending.as_bytes())
}

fn has_any_ending(text: &[u8], endings: &[&'static str]) -> bool
    ensures { result ≡ list_any (has_ending text.now) (texts_view endings.now) }
{
    for ending in endings {
        if has_ending(text, ending) {
            return true;
        }
    }
    false
}

/// SOURCE. `Usage` exactly where it has none of these endings, or isn't given.
pub fn source(
    alloc: Global,
    values: &Values,
    endings: &[&'static str],
) -> Result<FileName, WordsError>
    ensures ok { IfOk result (λ file. source_of (texts_view endings.now) values.now ≡ Some file) }
    ensures usage { IsErrOf result Usage → source_of (texts_view endings.now) values.now ≡ None }
{
    let Some(file) = given(values, SOURCE) else {
        return Err(WordsError::Usage);
    };
    if !has_any_ending(file.as_bytes(), endings) {
        return Err(WordsError::Usage);
    }
    Ok(FileName::from_bytes(alloc, file.as_bytes())?)
}

fn is_of_form(form: Form, text: &[u8]) -> bool
    ensures { text_by (form_view form) text.now ≡ if result then Some text.now else None }
{
    match form {
        Form::Ending(ending) => has_ending(text, ending),
        _ => true,
    }
}

/// The text of an option. `Usage` exactly where it isn't of its form, or isn't given.
pub fn text(alloc: Global, values: &Values, setting: Setting) -> Result<FileName, WordsError>
    ensures ok { IfOk result (λ text. text_of (setting_view setting) values.now ≡ Some text) }
    ensures usage { IsErrOf result Usage → text_of (setting_view setting) values.now ≡ None }
{
    let Some(text) = given(values, setting.name) else {
        return Err(WordsError::Usage);
    };
    if !is_of_form(setting.form, text.as_bytes()) {
        return Err(WordsError::Usage);
    }
    Ok(FileName::from_bytes(alloc, text.as_bytes())?)
}

/// Whether a flag is given. Takes no memory.
pub fn is_set(values: &Values, setting: Setting) -> bool
    ensures { result ≡ is_set (setting_view setting) values.now }
{
    match given(values, setting.name) {
        Some(text) => is_same(text.as_bytes(), b"true"),
        None => false,
    }
}

// The number that the text spells in decimal digits, within these bounds.
fn number_within(least: u32, most: u32, text: &[u8]) -> Option<u32>
    ensures { result ≡ number_within least most text.now }
{
    if text.len() > MOST_DIGITS {
        return None;
    }
    let n = read_u64(text)?;
    if n < u64::from(least) || u64::from(most) < n {
        return None;
    }
    Some(n as u32)
}

fn number_by(form: Form, text: &[u8]) -> Option<u32>
    ensures { result ≡ number_by (form_view form) text.now }
{
    match form {
        Form::Number(least, most, _) => number_within(least, most, text),
        _ => None,
    }
}

fn default_of(form: Form) -> Option<u32>
    ensures { result ≡ default_of (form_view form) }
{
    match form {
        Form::Number(_, _, default) => default,
        _ => None,
    }
}

fn number_or_default(values: &Values, setting: Setting) -> Option<u32>
    ensures { result ≡ number_of (setting_view setting) values.now }
{
    match given(values, setting.name) {
        Some(text) => number_by(setting.form, text.as_bytes()),
        None => default_of(setting.form),
    }
}

/// The number of an option, or the one that stands for it where it is left out. `Usage` exactly where there is none, or what is given is
/// no number within its bounds.
pub fn number(values: &Values, setting: Setting) -> Result<u32, WordsError>
    ensures ok { IfOk result (λ n. number_of (setting_view setting) values.now ≡ Some n) }
    ensures usage { IsErrOf result Usage → number_of (setting_view setting) values.now ≡ None }
{
    match number_or_default(values, setting) {
        Some(n) => Ok(n),
        None => Err(WordsError::Usage),
    }
}

fn number_or_none(values: &Values, setting: Setting) -> Option<Option<u32>>
    ensures { result ≡ number_if_given (setting_view setting) values.now }
{
    match given(values, setting.name) {
        Some(text) => match number_by(setting.form, text.as_bytes()) {
            Some(n) => Some(Some(n)),
            None => None,
        },
        None => Some(None),
    }
}

/// The number of an option, if it is given. `Usage` exactly where what is given is no number within its bounds.
pub fn number_if_given(values: &Values, setting: Setting) -> Result<Option<u32>, WordsError>
    ensures ok { IfOk result (λ n. number_if_given (setting_view setting) values.now ≡ Some n) }
    ensures usage { IsErrOf result Usage → number_if_given (setting_view setting) values.now ≡ None }
{
    match number_or_none(values, setting) {
        Some(n) => Ok(n),
        None => Err(WordsError::Usage),
    }
}

fn encoding_by(text: &[u8]) -> Option<Encoding>
    ensures { result ≡ encoding_by text.now }
{
    if is_same(text, b"o") {
        return Some(Encoding::OneHot);
    }
    if is_same(text, b"r") {
        return Some(Encoding::Random);
    }
    if is_same(text, b"j") {
        return Some(Encoding::Adjacent);
    }
    None
}

fn encoding_or_default(values: &Values) -> Option<Encoding>
    ensures { result ≡ encoding_of values.now }
{
    match given(values, ENCODING.name) {
        Some(text) => encoding_by(text.as_bytes()),
        None => Some(Encoding::Adjacent),
    }
}

/// How states get their codes. `Usage` exactly where what is given for it is none of its letters.
pub fn encoding_given(values: &Values) -> Result<Encoding, WordsError>
    ensures ok { IfOk result (λ e. encoding_of values.now ≡ Some e) }
    ensures usage { IsErrOf result Usage → encoding_of values.now ≡ None }
{
    match encoding_or_default(values) {
        Some(encoding) => Ok(encoding),
        None => Err(WordsError::Usage),
    }
}
