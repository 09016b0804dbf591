//! Names as keys of a table.

ghost use Rattle.std.specs.Prelude.{◌≡◌, fold};
ghost use Rattle.std.proofs.Common.{ap};
ghost use Rattle.std.specs.Cmp.{on_equiv, on_per, partial_equiv_from_equiv};
ghost use Rattle.std.specs.Cmp.Lexicographic.{bytes_decides, nat_list_eq_equiv};
ghost use Rattle.std.specs.Hash as fed;
ghost use Rattle.value_core.specs.NameFold.{folded, same_name};

use std::hash::{Hash, Hasher};

/// A text that is equal to another, and hashed as it, where both are the same but for the case of
/// ASCII letters.
#[derive(Clone, Copy, Debug, Drop)]
pub(crate) struct Folded<'a> {
    pub(crate) text: &'a str,
}

impl<'a> PartialEq for Folded<'a> {
    ghost eq = { λ a b. same_name a.text.now b.text.now };

    ghost laws = { on_per (λ a. folded a.text.now) (partial_equiv_from_equiv nat_list_eq_equiv) };

    fn eq(&self, other: &Folded<'a>) -> bool {
        self.text.eq_ignore_ascii_case(other.text)
    }
}

impl<'a> Eq for Folded<'a> {
    ghost laws = { on_equiv (λ a. folded a.text.now) nat_list_eq_equiv };
}

/// Writes the bytes of a text, its ASCII letters in lower case.
fn hash_folded<H: Hasher>(text: &[u8], state: &mut H)
    ensures { state.new ≡ fold H.write state.old (fed.slice fed.u8 (folded text.now)) }
{
    state.write_usize(text.len());
    for byte in text {
        state.write_u8(byte.to_ascii_lowercase());
    }
}

impl<'a> Hash for Folded<'a> {
    ghost hash_input = { λ a. fed.slice fed.u8 (folded a.text.now) };

    ghost respects_eq = { λ a b same. ap (fed.slice fed.u8) ((bytes_decides (folded a.text.now) (folded b.text.now)).0 same) };

    fn hash<H: Hasher>(&self, state: &mut H) {
        hash_folded(self.text.as_bytes(), state);
    }
}
