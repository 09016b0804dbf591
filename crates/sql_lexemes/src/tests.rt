use crate::lexemes;
use sql_tokens::tokens;
use sql_tree::{LexemeKind, same_kind};
use std::test::Fail;

#[test]
fn tokens_have_lexemes(rt: HostRuntime) -> Result<(), Fail> {
    let alloc = rt.alloc();
    let text = b"Select `a b` != 'it\\'s \\n' ;- 12 x =>";
    let list = tokens(alloc, text)?;
    let found = lexemes(alloc, text, list.as_slice())?;
    let wanted: [(LexemeKind, &str, u64); 9] = [
        (LexemeKind::Select, "Select", 0),
        (LexemeKind::Quoted, "a b", 0),
        (LexemeKind::Ne, "", 0),
        (LexemeKind::Str, "it's \n", 0),
        (LexemeKind::Semicolon, "", 0),
        (LexemeKind::Minus, "", 0),
        (LexemeKind::Number, "", 12),
        (LexemeKind::Word, "x", 0),
        (LexemeKind::Arrow, "", 0),
    ];
    assert!(rt; found.len() == 9);
    for (lexeme, want) in found.as_slice().iter().zip(&wanted) {
        assert!(rt; same_kind(lexeme.kind, want.0));
        assert!(rt; lexeme.text.as_str() == want.1);
        assert!(rt; lexeme.value == want.2);
    }
    Ok(())
}
