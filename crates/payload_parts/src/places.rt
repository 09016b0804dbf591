// How far a flow may have read.
ghost use Rattle.std.specs.Prelude.{◌≡◌, ◌↔◌, IsTrue, IfSome, find, is_some};
ghost use Rattle.std.specs.Option.{option_copied};
ghost use Rattle.state_model.specs.Dataset.{is_flow};
ghost use Rattle.state_model.specs.Follows as rules;
ghost use Rattle.state_model.specs.Follows.{FilesMove};
ghost use Rattle.payload_parts.specs.Places.{AreAmong};

use commit_payloads::StoredFlow;
use value_core::{Cursor, FilePlace, Name};

/// Whether a place is of the same file, and not before the old one.
fn keeps_place(old: &FilePlace, new: &FilePlace) -> bool
    ensures { result ≡ rules.keeps_place old.now new.now }
{
    new.file.as_str() == old.file.as_str() && old.place <= new.place
}

/// What stands behind the first place that keeps the old one.
fn behind<'a>(old: &FilePlace, places: &'a [FilePlace]) -> Option<&'a [FilePlace]>
    ensures kept { is_some result ≡ rules.is_kept old.now places.now }
    ensures among { IfSome result (λ rest. AreAmong rest.now places.now) }
{
    let mut rest = places;
    while let Some((new, more)) = rest.split_first() {
        if keeps_place(old, new) {
            return Some(more);
        }
        rest = more;
    }
    None
}

/// The same, sought in what is left of the places, and where it isn't there in all of them.
fn next_of<'a>(
    old: &FilePlace,
    rest: &'a [FilePlace],
    places: &'a [FilePlace],
) -> Option<&'a [FilePlace]>
    requires { AreAmong rest.now places.now }
    ensures kept { is_some result ≡ rules.is_kept old.now places.now }
    ensures among { IfSome result (λ more. AreAmong more.now places.now) }
{
    match behind(old, rest) {
        Some(more) => Some(more),
        None => behind(old, places),
    }
}

/// Whether each file is among the new places, and not before its old place. Places ascend, so that each
/// is sought behind the one before it, and among all of them only where it isn't there.
fn none_falls(old: &[FilePlace], new: &[FilePlace]) -> bool
    ensures { result ≡ rules.none_falls old.now new.now }
{
    let mut rest = new;
    for place in old {
        match next_of(place, rest, new) {
            Some(more) => rest = more,
            None => return false,
        }
    }
    true
}

/// Whether two cursors over files go on: each file of the old one is in the new one, and not before its old place. Places in files
/// ascend by name, so that it takes one walk along both.
pub fn files_move(old: &Cursor, new: &Cursor) -> bool
    ensures { IsTrue result ↔ FilesMove old.now new.now }
{
    match (old, new) {
        (Cursor::Files(old), Cursor::Files(new)) => none_falls(old.as_slice(), new.as_slice()),
        _ => false,
    }
}

/// The flow of a name, whatever the case of its ASCII letters. `None` exactly where there is none.
pub fn flow_named<'a>(flows: &'a [StoredFlow], name: &Name) -> Option<&'a StoredFlow>
    ensures { option_copied result ≡ find (is_flow name.now) flows.now }
{
    for flow in flows {
        if flow.name.is_same(name) {
            return Some(flow);
        }
    }
    None
}
