ghost use Rattle.std.specs.Prelude.{◌≡◌, ◌++◌, IfOk, string_bytes};
ghost use Rattle.value_core.specs.NameFold.{same_name};

use std::alloc::{AllocError, Global};
use std::marker::Model;

/// A text of its own, which contracts see as its UTF-8 bytes.
#[derive(Debug, Drop)]
pub struct Text {
    text: String,
}

impl Model for Text {
    ghost use Rattle.std.specs.Prelude.{List, ℕ, string_bytes};

    ghost Value = { List ℕ };

    ghost view = { λ text. string_bytes text.text };
}

impl Text {
    /// A copy of a text. Fails for want of memory alone.
    pub fn new(alloc: Global, text: &str) -> Result<Text, AllocError>
        ensures { IfOk result (λ copy. copy ≡ text.now) }
    {
        Ok(Text {
            text: String::from_str(alloc, text)?,
        })
    }

    /// The text of a `String`. Takes no memory.
    pub fn from_string(text: String) -> Text
        ensures { result ≡ string_bytes text }
    {
        Text { text }
    }

    /// The text.
    pub fn as_str(&self) -> &str
        ensures { result.now ≡ self.now }
    {
        self.text.as_str()
    }

    /// An equal value. Fails for want of memory alone.
    pub fn copy(&self, alloc: Global) -> Result<Text, AllocError>
        ensures { IfOk result (λ copy. copy ≡ self.now) }
    {
        Text::new(alloc, self.as_str())
    }

    /// This text and then another one.
    pub fn joined(&self, alloc: Global, more: &Text) -> Result<Text, AllocError>
        ensures { IfOk result (λ text. text ≡ self.now ++ more.now) }
    {
        let mut text = String::from_str(alloc, self.text.as_str())?;
        text.push_str(more.text.as_str())?;
        Ok(Text { text })
    }
}

/// The name of a dataset, a column, a flow or an expectation, as it was spelled.
#[derive(Debug, Drop)]
pub struct Name {
    text: String,
}

impl Model for Name {
    ghost use Rattle.std.specs.Prelude.{List, ℕ, string_bytes};

    ghost Value = { List ℕ };

    ghost view = { λ name. string_bytes name.text };
}

impl Name {
    /// A copy of a name's spelling. Fails for want of memory alone.
    pub fn new(alloc: Global, text: &str) -> Result<Name, AllocError>
        ensures { IfOk result (λ copy. copy ≡ text.now) }
    {
        Ok(Name {
            text: String::from_str(alloc, text)?,
        })
    }

    /// The name as it was spelled.
    pub fn as_str(&self) -> &str
        ensures { result.now ≡ self.now }
    {
        self.text.as_str()
    }

    /// The name that a `String` spells. Takes no memory.
    pub fn from_string(text: String) -> Name
        ensures { result ≡ string_bytes text }
    {
        Name { text }
    }

    /// An equal value. Fails for want of memory alone.
    pub fn copy(&self, alloc: Global) -> Result<Name, AllocError>
        ensures { IfOk result (λ copy. copy ≡ self.now) }
    {
        Name::new(alloc, self.as_str())
    }

    /// Whether the names are equal once ASCII letters are folded.
    pub fn is_same(&self, other: &Name) -> bool
        ensures { result ≡ same_name self.now other.now }
    {
        self.text.as_str().eq_ignore_ascii_case(other.text.as_str())
    }
}
