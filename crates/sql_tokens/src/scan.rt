//! The tokens of a text, in order.

ghost use Rattle.std.specs.Prelude.{◌≡◌, ◌≢◌, ◌<◌, ◌≤◌, ℕ, [], length, IsUtf8, IfOk};
ghost use Rattle.std.specs.Str.Lossy.{utf8_valid_len};
ghost use Rattle.sql_tokens.specs.Lexical.{Text};
ghost use Rattle.sql_tokens.specs.Scanning.{Answer, Scanned, Scans, max_text};
ghost use Rattle.sql_tokens.specs.Slices.{IsSliced};

use crate::error::SqlRefusal;
use crate::lexical::{Context, Piece, after, front_piece, is_too_large};
use crate::token::{Token, TokenList};
use std::alloc::Global;

/// The most bytes of a text: 1 MiB.
pub const MAX_TEXT: usize = 1_048_576;

fn scan(alloc: Global, text: &[u8]) -> Result<TokenList, SqlRefusal>
    requires { length text.now ≤ max_text }
    ensures scanned { Scanned text.now result }
    ensures sliced { IfOk result (λ list. IsSliced text.now 0 (length text.now) list) }
    ensures never_unexpected { (at : ℕ) → result ≢ Err (SqlRefusal.Unexpected at) }
    ensures never_expr { (at : ℕ) → result ≢ Err (SqlRefusal.ExprTooLong at) }
{
    let mut found = TokenList::new(alloc);
    let mut context = Context::Open;
    let mut at = 0;
    while at < text.len() {
        let rest = &text[at..];
        match front_piece(rest) {
            Piece::Blank(len) => at += len,
            Piece::Token(kind, len) => {
                let spelled = &rest[..len];
                if is_too_large(context, kind, spelled) {
                    return Err(SqlRefusal::LiteralTooLarge { at: at as u32 });
                }
                let end = at + len;
                found.push(Token {
                    start: at as u32,
                    end: end as u32,
                    kind,
                })?;
                context = after(context, kind, spelled);
                at = end;
            }
            Piece::Bad => return Err(SqlRefusal::BadToken { at: at as u32 }),
        }
    }
    Ok(found)
}

/// The tokens of a text, or the first reason why it has none. Blanks (space, tab, CR, LF) and comments stand between
/// tokens. It answers neither `Unexpected` nor `ExprTooLong`, which are about the order of tokens. Each byte of the text
/// is looked at a fixed number of times.
pub fn tokens(alloc: Global, text: &[u8]) -> Result<TokenList, SqlRefusal>
    ensures too_long { max_text < length text.now → result ≡ Err SqlRefusal.TextTooLong }
    // The first byte that is not UTF-8 is refused before any token.
    ensures not_utf8 { length text.now ≤ max_text → utf8_valid_len text.now < length text.now
        → result ≡ Err (SqlRefusal.BadToken (utf8_valid_len text.now)) }
    // All else is what the scan from the front finds, but for want of memory.
    ensures scanned { length text.now ≤ max_text → IsUtf8 text.now → result ≢ Err SqlRefusal.Memory
        → Scans Context.Open 0 text.now [] result }
    // The tokens are slices of the text, in order and without overlap.
    ensures sliced { IfOk result (λ list. IsSliced text.now 0 (length text.now) list) }
    ensures utf8 { IfOk result (λ list. IsUtf8 text.now) }
    ensures never_unexpected { (at : ℕ) → result ≢ Err (SqlRefusal.Unexpected at) }
    ensures never_expr { (at : ℕ) → result ≢ Err (SqlRefusal.ExprTooLong at) }
{
    if text.len() > MAX_TEXT {
        return Err(SqlRefusal::TextTooLong);
    }
    match std::str::from_utf8(text) {
        Ok(_) => scan(alloc, text),
        Err(fault) => Err(SqlRefusal::BadToken {
            at: fault.valid_up_to() as u32,
        }),
    }
}

/// A text is read in one way.
pub fn scan_is_one()
    ensures { (text : Text) (r s : Answer) → Scans Context.Open 0 text [] r → Scans Context.Open 0 text [] s → r ≡ s }
{}
