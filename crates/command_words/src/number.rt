// Numbers on a command line.
ghost use Rattle.std.specs.Prelude.{◌≡◌, ◌≤◌, length};
ghost use Rattle.std.specs.Char.{is_ascii_digit};
ghost use Rattle.std.specs.List.{list_all};
ghost use Rattle.command_words.specs.Numbers as spec;

fn are_digits(bytes: &[u8]) -> bool
    ensures { result ≡ list_all is_ascii_digit bytes.now }
{
    bytes.iter().all(|byte| byte.is_ascii_digit())
}

fn is_numeral(word: &str) -> bool
    ensures { result ≡ spec.is_numeral word.now }
{
    !word.is_empty() && are_digits(word.as_bytes())
}

/// The number that a word of 1 to 20 decimal digits writes. `None` where it is none, and from 2^64 on.
pub(crate) fn number(word: &str) -> Option<u64>
    ensures { result ≡ spec.number word.now }
{
    if is_numeral(word) && word.len() <= 20 {
        word.parse::<u64>().ok()
    } else {
        None
    }
}

/// The number that a word writes, where it is within these bounds.
pub(crate) fn number_within(least: u64, most: u64, word: &str) -> Option<u64>
    ensures { result ≡ spec.number_within least most word.now }
{
    match number(word) {
        Some(n) if least <= n && n <= most => Some(n),
        _ => None,
    }
}
