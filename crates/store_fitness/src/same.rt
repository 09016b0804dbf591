// Whether two definitions are equal.
ghost use Rattle.std.specs.Prelude.{◌≡◌, ◌↔◌, IsTrue};

use commit_payloads::{Definition, StoredExpectation, StoredFlow, StoredOrigin};
use value_core::{Column, Kind, Name, Text};

/// A value that can be compared with another one.
trait Same {
    /// Whether they are equal.
    fn is_equal(&self, other: &Self) -> bool
        ensures { IsTrue result ↔ (self.now ≡ other.now) };
}

impl Same for u64 {
    fn is_equal(&self, other: &u64) -> bool {
        *self == *other
    }
}

impl Same for Kind {
    fn is_equal(&self, other: &Kind) -> bool {
        *self == *other
    }
}

fn are_equal_texts(one: &str, other: &str) -> bool
    ensures { IsTrue result ↔ (one.now ≡ other.now) }
{
    one == other
}

impl Same for Name {
    /// By the spelling.
    fn is_equal(&self, other: &Name) -> bool {
        are_equal_texts(self.as_str(), other.as_str())
    }
}

impl Same for Text {
    fn is_equal(&self, other: &Text) -> bool {
        are_equal_texts(self.as_str(), other.as_str())
    }
}

impl Same for Column {
    fn is_equal(&self, other: &Column) -> bool {
        if !self.name.is_equal(&other.name) {
            return false;
        }
        self.kind == other.kind
    }
}

impl Same for StoredExpectation {
    fn is_equal(&self, other: &StoredExpectation) -> bool {
        if !self.name.is_equal(&other.name) {
            return false;
        }
        self.action == other.action
    }
}

impl Same for StoredOrigin {
    fn is_equal(&self, other: &StoredOrigin) -> bool {
        match (self, other) {
            (StoredOrigin::Folder(one), StoredOrigin::Folder(two)) => one.is_equal(two),
            (StoredOrigin::Table(one), StoredOrigin::Table(two)) => one.is_equal(two),
            _ => false,
        }
    }
}

impl Same for StoredFlow {
    fn is_equal(&self, other: &StoredFlow) -> bool {
        if !self.name.is_equal(&other.name) {
            return false;
        }
        self.origin.is_equal(&other.origin)
    }
}

/// Whether two lists have equal items in one order.
fn are_equal<T: Same>(one: &[T], other: &[T]) -> bool
    ensures { IsTrue result ↔ (one.now ≡ other.now) }
{
    let mut left = one;
    let mut right = other;
    while let Some((first, more)) = left.split_first() {
        let Some((second, rest)) = right.split_first() else {
            return false;
        };
        if !first.is_equal(second) {
            return false;
        }
        left = more;
        right = rest;
    }
    right.is_empty()
}

/// Whether two definitions are equal in each part.
pub(crate) fn are_equal_definitions(one: &Definition, other: &Definition) -> bool
    ensures { IsTrue result ↔ (one.now ≡ other.now) }
{
    one.name.is_equal(&other.name)
        && one.text.is_equal(&other.text)
        && one.body == other.body
        && are_equal(one.columns.as_slice(), other.columns.as_slice())
        && are_equal(one.expectations.as_slice(), other.expectations.as_slice())
        && are_equal(one.flows.as_slice(), other.flows.as_slice())
        && are_equal(one.keys.as_slice(), other.keys.as_slice())
        && are_equal(one.sequence.as_slice(), other.sequence.as_slice())
}
