// Whether two definitions are one.
ghost use Rattle.std.specs.Prelude.{◌≡◌, ◌↔◌, IsTrue};
ghost use Rattle.payload_parts.specs.Same.{SameHead, SameTail};

use commit_payloads::{
    Definition, StoredAction, StoredBody, StoredExpectation, StoredFlow, StoredOrigin,
};
use value_core::{Column, Kind, Name, Text};

/// A type of plain values, of which two can be told to be one.
pub(crate) trait Equal {
    fn is_equal(&self, other: &Self) -> bool
        ensures { IsTrue result ↔ (self.now ≡ other.now) };
}

/// Whether two lists have the same items in the same order.
pub(crate) fn are_equal<T: Equal>(left: &[T], right: &[T]) -> bool
    ensures { IsTrue result ↔ (left.now ≡ right.now) }
{
    let mut rest = right;
    for x in left {
        let Some((y, more)) = rest.split_first() else {
            return false;
        };
        if !x.is_equal(y) {
            return false;
        }
        rest = more;
    }
    rest.is_empty()
}

impl Equal for u64 {
    fn is_equal(&self, other: &u64) -> bool {
        *self == *other
    }
}

impl Equal for Kind {
    fn is_equal(&self, other: &Kind) -> bool {
        *self == *other
    }
}

impl Equal for Name {
    fn is_equal(&self, other: &Name) -> bool {
        self.as_str() == other.as_str()
    }
}

impl Equal for Text {
    fn is_equal(&self, other: &Text) -> bool {
        self.as_str() == other.as_str()
    }
}

impl Equal for StoredBody {
    fn is_equal(&self, other: &StoredBody) -> bool {
        *self == *other
    }
}

impl Equal for StoredAction {
    fn is_equal(&self, other: &StoredAction) -> bool {
        *self == *other
    }
}

impl Equal for Column {
    fn is_equal(&self, other: &Column) -> bool {
        self.kind.is_equal(&other.kind) && self.name.is_equal(&other.name)
    }
}

impl Equal for StoredExpectation {
    fn is_equal(&self, other: &StoredExpectation) -> bool {
        self.action.is_equal(&other.action) && self.name.is_equal(&other.name)
    }
}

impl Equal for StoredOrigin {
    fn is_equal(&self, other: &StoredOrigin) -> bool {
        match (self, other) {
            (StoredOrigin::Folder(a), StoredOrigin::Folder(b)) => a.is_equal(b),
            (StoredOrigin::Table(a), StoredOrigin::Table(b)) => a.is_equal(b),
            _ => false,
        }
    }
}

impl Equal for StoredFlow {
    fn is_equal(&self, other: &StoredFlow) -> bool {
        self.name.is_equal(&other.name) && self.origin.is_equal(&other.origin)
    }
}

/// Whether the first parts of two definitions are the same: name, text, body and columns.
fn has_equal_head(a: &Definition, b: &Definition) -> bool
    ensures { IsTrue result ↔ SameHead a.now b.now }
{
    if !a.name.is_equal(&b.name) {
        return false;
    }
    if !a.text.is_equal(&b.text) {
        return false;
    }
    if !a.body.is_equal(&b.body) {
        return false;
    }
    are_equal(a.columns.as_slice(), b.columns.as_slice())
}

/// Whether the other parts of two definitions are the same.
fn has_equal_tail(a: &Definition, b: &Definition) -> bool
    ensures { IsTrue result ↔ SameTail a.now b.now }
{
    if !are_equal(a.expectations.as_slice(), b.expectations.as_slice()) {
        return false;
    }
    if !are_equal(a.flows.as_slice(), b.flows.as_slice()) {
        return false;
    }
    if !are_equal(a.keys.as_slice(), b.keys.as_slice()) {
        return false;
    }
    are_equal(a.sequence.as_slice(), b.sequence.as_slice())
}

impl Equal for Definition {
    fn is_equal(&self, other: &Definition) -> bool {
        has_equal_head(self, other) && has_equal_tail(self, other)
    }
}
