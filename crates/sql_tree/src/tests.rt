use crate::{LexemeKind, keyword, same_kind, symbol, word_kind};
use std::test::Fail;

#[test]
fn words_have_kinds_in_any_case(rt: HostRuntime) -> Result<(), Fail> {
    let words: [(&[u8], LexemeKind); 6] = [
        (b"select", LexemeKind::Select),
        (b"Try_Cast", LexemeKind::TryCast),
        (b"end", LexemeKind::EndWord),
        (b"streaming", LexemeKind::Word),
        (b"coalesce", LexemeKind::Word),
        (b"ANDS", LexemeKind::Word),
    ];
    for (word, kind) in words {
        assert!(rt; same_kind(word_kind(word), kind));
    }
    assert!(rt; keyword(LexemeKind::EndWord) == "END");
    assert!(rt; symbol(LexemeKind::Ne) == "<>");
    Ok(())
}
