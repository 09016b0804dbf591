use crate::{MAX_TEXT, SqlRefusal, TokenKind, capped_value, tokens};
use std::alloc::{AllocError, Global};
use std::test::Fail;

/// Whether the tokens of a text stand at these places, each with its end and kind.
fn has_tokens(alloc: Global, text: &[u8], wanted: &[(u32, u32, TokenKind)]) -> bool {
    let Ok(found) = tokens(alloc, text) else {
        return false;
    };
    let found = found.as_slice();
    let mut same = found.len() == wanted.len();
    for (token, place) in found.iter().zip(wanted) {
        same = same && token.start == place.0 && token.end == place.1 && token.kind == place.2;
    }
    same
}

/// Why a text is refused.
fn refusal(alloc: Global, text: &[u8]) -> Option<SqlRefusal> {
    match tokens(alloc, text) {
        Ok(_) => None,
        Err(refusal) => Some(refusal),
    }
}

#[test]
fn tokens_are_the_longest(rt: HostRuntime) -> Result<(), Fail> {
    use TokenKind::{Number, Quoted, Str, Symbol, Word};
    let alloc = rt.alloc();
    assert!(rt;
        has_tokens(
            alloc,
            b"a_1 = 12",
            &[(0, 3, Word), (4, 5, Symbol), (6, 8, Number)]
        )
    );
    let symbols = [
        (0, 2, Symbol),
        (2, 4, Symbol),
        (4, 6, Symbol),
        (6, 8, Symbol),
        (8, 9, Symbol),
        (9, 11, Symbol),
        (11, 13, Symbol),
    ];
    assert!(rt; has_tokens(alloc, b"<><=>===>||!=", &symbols));
    assert!(rt;
        has_tokens(
            alloc,
            b"'\\'\\\"\\\\\\n\\t\\r\"' \"'\"",
            &[(0, 15, Str), (16, 19, Str)]
        )
    );
    assert!(rt;
        has_tokens(
            alloc,
            b"/* a /* b */ /**/ */x--y\r\n`z z`",
            &[(20, 21, Word), (26, 31, Quoted)]
        )
    );
    assert!(rt; has_tokens(alloc, b"'\xc3\xa9\n'", &[(0, 5, Str)]));
    assert!(rt; capped_value(b"9223372036854775807") == 9223372036854775807);
    Ok(())
}

#[test]
fn texts_are_refused_at_a_byte(rt: HostRuntime) -> Result<(), Fail> {
    let alloc = rt.alloc();
    let bad: [(&[u8], u32); 14] = [
        (b"'a\\x'", 0),
        (b"x 'abc", 2),
        (b"a /* /* /* */ */", 2),
        (b"/*/", 0),
        (b"``", 0),
        (b"12x", 0),
        (b"1.5", 0),
        (b"1_", 0),
        (b"!", 0),
        (b"a |", 2),
        (b"a\x00", 1),
        (b"a \xc3", 2),
        (b"\xc3\xa9", 0),
        (b"9223372036854775807 ?", 20),
    ];
    for (text, at) in bad {
        assert!(rt;
            refusal(alloc, text) == Some(SqlRefusal::BadToken { at }),
            "at {at}"
        );
    }
    Ok(())
}

#[test]
fn large_literals_stand_behind_a_sign(rt: HostRuntime) -> Result<(), Fail> {
    let alloc = rt.alloc();
    let large: [(&[u8], u32); 8] = [
        (b"9223372036854775808 '", 0),
        (b"-9223372036854775809", 1),
        (b"2 - 9223372036854775808", 4),
        (b"a-9223372036854775808", 2),
        (b"`a`-9223372036854775808", 4),
        (b"'a'-9223372036854775808", 4),
        (b")-9223372036854775808", 2),
        (b"null-9223372036854775808", 5),
    ];
    for (text, at) in large {
        assert!(rt;
            refusal(alloc, text) == Some(SqlRefusal::LiteralTooLarge { at }),
            "at {at}"
        );
    }
    let small: [&[u8]; 4] = [
        b"-9223372036854775808",
        b"a - - /* */ 9223372036854775808",
        b"in(-9223372036854775808",
        b"select -9223372036854775808",
    ];
    for text in small {
        assert!(rt; refusal(alloc, text) == None);
    }
    Ok(())
}

/// A text of blanks.
fn blanks(alloc: Global, count: usize) -> Result<Vec<u8>, AllocError> {
    vec![in alloc; b' '; count]
}

#[test]
fn long_texts_are_refused(rt: HostRuntime) -> Result<(), Fail> {
    let alloc = rt.alloc();
    let longest = blanks(alloc, MAX_TEXT)?;
    assert!(rt; has_tokens(alloc, longest.as_slice(), &[]));
    let longer = blanks(alloc, MAX_TEXT + 1)?;
    assert!(rt; refusal(alloc, longer.as_slice()) == Some(SqlRefusal::TextTooLong));
    Ok(())
}
