// Texts and names: how many bytes, and UTF-8.
ghost use Rattle.std.specs.Prelude.{◌≡◌, ◌≤◌, ◌++◌, true, false, length, MatchOption, OnOk, None, Some, drop};
ghost use Rattle.std.specs.Str.{is_utf8};
ghost use Rattle.segment_rows.specs.FieldLaws.{text_exact};
ghost use Rattle.segment_rows.specs.Ranges.{IsText};
ghost use Rattle.segment_rows.specs.Reading.{text_at};
ghost use Rattle.segment_rows.specs.Spelling.{spelled_text};

use crate::field::Field;
use crate::number::take_number;
use std::alloc::{AllocError, Global};
use std::str;
use value_core::{Name, Text};

/// The bytes as a text, where they are UTF-8.
fn as_text(bytes: &[u8]) -> Option<&str>
    ensures { MatchOption result (is_utf8 bytes.now ≡ false) (λ text. (is_utf8 bytes.now ≡ true) × (text.now ≡ bytes.now)) }
{
    match str::from_utf8(bytes) {
        Ok(text) => Some(text),
        Err(_) => None,
    }
}

/// The text that begins at a place, and the place behind it. Its length is looked at before any byte is taken.
#[tactic(auto, unfolding(crate::specs::Reading::text_at))]
fn text_in(bytes: &[u8], at: usize) -> Option<(&str, usize)>
    requires { at ≤ length bytes.now }
    ensures { MatchOption result (text_at (drop at bytes.now) ≡ None) (λ found. (at ≤ found.1) × (found.1 ≤ length bytes.now) × (text_at (drop at bytes.now) ≡ Some (found.0.now, drop found.1 bytes.now))) }
{
    let (len, at) = take_number(bytes, at)?;
    let len = len as usize;
    if bytes.len() - at < len {
        return None;
    }
    let text = as_text(&bytes[at..at + len])?;
    Some((text, at + len))
}

fn put_bytes(out: &mut Vec<u8>, text: &str) -> Result<(), AllocError>
    ensures bytes { OnOk result (out.new.items ≡ out.old.items ++ spelled_text text.now) }
    ensures range { OnOk result (IsText text.now) }
{
    let bytes = text.as_bytes();
    (bytes.len() as u64).put(out)?;
    out.extend_from_slice(bytes)
}

impl Field for Text {
    ghost spelled = { spelled_text };

    ghost in_range = { IsText };

    ghost reading = { text_at };

    ghost exact = { text_exact };

    fn put(&self, out: &mut Vec<u8>) -> Result<(), AllocError> {
        put_bytes(out, self.as_str())
    }

    fn take(alloc: Global, bytes: &[u8], at: usize) -> Result<Option<(Text, usize)>, AllocError> {
        let Some((text, end)) = text_in(bytes, at) else {
            return Ok(None);
        };
        Ok(Some((Text::new(alloc, text)?, end)))
    }
}

impl Field for Name {
    ghost spelled = { spelled_text };

    ghost in_range = { IsText };

    ghost reading = { text_at };

    ghost exact = { text_exact };

    fn put(&self, out: &mut Vec<u8>) -> Result<(), AllocError> {
        put_bytes(out, self.as_str())
    }

    fn take(alloc: Global, bytes: &[u8], at: usize) -> Result<Option<(Name, usize)>, AllocError> {
        let Some((text, end)) = text_in(bytes, at) else {
            return Ok(None);
        };
        Ok(Some((Name::new(alloc, text)?, end)))
    }
}
