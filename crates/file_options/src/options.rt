ghost use Rattle.std.specs.Prelude.{◌≡◌, find};
ghost use Rattle.std.specs.Option.{option_copied};
ghost use Rattle.file_options.specs.Options as spec;

use sql_tree::{OptionValue, SqlOption};
use value_core::{Format, Name};

fn option_named<'a>(options: &'a [SqlOption], word: &str) -> Option<&'a SqlOption>
    ensures { option_copied result ≡ spec.option_named word.now options.entry.now }
{
    options.iter().find(|option| option.word.as_str() == word)
}

/// What an option is set to, if it is there.
pub fn value_of<'a>(options: &'a [SqlOption], word: &str) -> Option<&'a OptionValue>
    ensures { option_copied result ≡ spec.set_to word.now options.entry.now }
{
    let Some(option) = option_named(options, word) else {
        return None;
    };
    Some(&option.value)
}

fn is_known(word: &str) -> bool
    ensures { result ≡ spec.is_known word.now }
{
    word == "format"
        || word == "schema"
        || word == "header"
        || word == "sep"
        || word == "rescuedDataColumn"
}

fn has_word(options: &[SqlOption], word: &str) -> bool
    ensures { result ≡ spec.has_word options.now word.now }
{
    options.iter().any(|option| option.word.as_str() == word)
}

/// The word of the first option that is unknown or repeats an earlier one.
pub fn stray_word(options: &[SqlOption]) -> Option<&Name>
    ensures { option_copied result ≡ spec.stray_word options.now }
{
    for at in 0..options.len() {
        let word = &options[at].word;
        if !is_known(word.as_str()) || has_word(&options[..at], word.as_str()) {
            return Some(word);
        }
    }
    None
}

fn format_named(value: &OptionValue) -> Option<Format>
    ensures { result ≡ spec.format_named value.now }
{
    match value {
        OptionValue::Bool(_) => None,
        OptionValue::Str(text) => {
            if text.as_str() == "json" {
                Some(Format::Json)
            } else if text.as_str() == "csv" {
                Some(Format::Csv)
            } else {
                None
            }
        }
    }
}

/// The format, which has to be there.
pub fn format_of(options: &[SqlOption]) -> Option<Format>
    ensures { result ≡ spec.format_of options.now }
{
    let Some(value) = value_of(options, "format") else {
        return None;
    };
    format_named(value)
}

fn is_separator(b: u8) -> bool
    ensures { result ≡ spec.is_separator b }
{
    b.is_ascii() && !(b == b'"' || b == b'\r' || b == b'\n')
}

fn one_separator(text: &[u8]) -> Option<u8>
    ensures { result ≡ spec.one_separator text.now }
{
    match text {
        [b] if is_separator(*b) => Some(*b),
        _ => None,
    }
}

fn separator_in(value: &OptionValue) -> Option<u8>
    ensures { result ≡ spec.separator_by (Some value.now) }
{
    match value {
        OptionValue::Bool(_) => None,
        OptionValue::Str(text) => one_separator(text.as_str().as_bytes()),
    }
}

/// The byte between two fields: a comma where nothing is said.
pub fn separator_of(options: &[SqlOption]) -> Option<u8>
    ensures { result ≡ spec.separator_of options.now }
{
    let Some(value) = value_of(options, "sep") else {
        return Some(b',');
    };
    separator_in(value)
}

fn truth_named(text: &str) -> Option<bool>
    ensures { result ≡ spec.truth_named text.now }
{
    if text == "true" {
        Some(true)
    } else if text == "false" {
        Some(false)
    } else {
        None
    }
}

fn header_in(value: &OptionValue) -> Option<bool>
    ensures { result ≡ spec.header_by (Some value.now) }
{
    match value {
        OptionValue::Bool(truth) => Some(*truth),
        OptionValue::Str(text) => truth_named(text.as_str()),
    }
}

/// Whether there is a header, as where nothing is said. A file of JSON lines has none in any case.
pub fn header_of(options: &[SqlOption]) -> Option<bool>
    ensures { result ≡ spec.header_of options.now }
{
    let Some(value) = value_of(options, "header") else {
        return Some(true);
    };
    header_in(value)
}

fn is_of_csv(word: &str) -> bool
    ensures { result ≡ spec.is_of_csv word.now }
{
    word == "header" || word == "sep"
}

fn option_of_csv(options: &[SqlOption]) -> Option<&SqlOption>
    ensures { option_copied result ≡ find (λ option. spec.is_of_csv option.word) options.now }
{
    options
        .iter()
        .find(|option| is_of_csv(option.word.as_str()))
}

/// The word of the first option that stands with json and is of CSV.
pub fn idle_word(format: Format, options: &[SqlOption]) -> Option<&Name>
    ensures { option_copied result ≡ spec.idle_word format options.now }
{
    match format {
        Format::Csv => None,
        Format::Json => {
            let Some(option) = option_of_csv(options) else {
                return None;
            };
            Some(&option.word)
        }
    }
}
