//! Names as keys of a table.

ghost use Rattle.std.specs.Prelude.{◌≡◌, fold, string_bytes};
ghost use Rattle.std.proofs.Common.{ap};
ghost use Rattle.std.specs.Cmp.{on_equiv, on_per, partial_equiv_from_equiv};
ghost use Rattle.std.specs.Cmp.Lexicographic.{bytes_decides, nat_list_eq_equiv};
ghost use Rattle.std.specs.Hash as fed;
ghost use Rattle.value_core.specs.NameFold.{folded, same_name};

use indexmap::Equivalent;
use std::convert::AsStr;
use std::hash::{Hash, Hasher};

/// A text that is equal to another, and hashed as it, where both are the same but for the case of
/// ASCII letters.
#[derive(Clone, Copy, Debug, Drop)]
pub(crate) struct Folded<T> {
    pub(crate) text: T,
}

impl<T: AsStr> PartialEq for Folded<T> {
    ghost eq = { λ a b. same_name (T.text a.text) (T.text b.text) };

    ghost laws = { on_per (λ a. folded (T.text a.text)) (partial_equiv_from_equiv nat_list_eq_equiv) };

    fn eq(&self, other: &Folded<T>) -> bool {
        self.text.as_str().eq_ignore_ascii_case(other.text.as_str())
    }
}

impl<T: AsStr> Eq for Folded<T> {
    ghost laws = { on_equiv (λ a. folded (T.text a.text)) nat_list_eq_equiv };
}

/// Writes the bytes of a text, its ASCII letters in lower case.
fn hash_folded<H: Hasher>(text: &[u8], state: &mut H)
    ensures { state.new ≡ fold H.write state.old (fed.slice fed.u8 (folded text.now)) }
{
    state.write_usize(text.len());
    for byte in text {
        state.write_u8(byte.to_ascii_lowercase());
    }
}

impl<T: AsStr> Hash for Folded<T> {
    ghost hash_input = { λ a. fed.slice fed.u8 (folded (T.text a.text)) };

    ghost respects_eq = { λ a b same. ap (fed.slice fed.u8) ((bytes_decides (folded (T.text a.text)) (folded (T.text b.text))).0 same) };

    fn hash<H: Hasher>(&self, state: &mut H) {
        hash_folded(self.text.as_str().as_bytes(), state);
    }
}

impl<'q> Equivalent<Folded<String>> for Folded<&'q str> {
    ghost equivalent = { λ sought key. same_name sought.text.now (string_bytes key.text) };

    ghost respects_hash = { λ sought key same. ap (fed.slice fed.u8) ((bytes_decides (folded sought.text.now) (folded (string_bytes key.text))).0 same) };

    ghost respects_eq = { λ sought one other. nat_list_eq_equiv.congr (folded sought.text.now) (folded (string_bytes one.text)) (folded (string_bytes other.text)) };

    fn equivalent(&self, key: &Folded<String>) -> bool {
        self.text.eq_ignore_ascii_case(key.text.as_str())
    }
}
