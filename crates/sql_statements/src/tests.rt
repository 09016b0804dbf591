use crate::entry::read_tokens;
use crate::error::Refusal;
use sql_tree::{Lexeme, LexemeKind, Statement};
use std::alloc::{AllocError, Global};
use std::test::Fail;
use value_core::Text;

fn lexeme(alloc: Global, kind: LexemeKind, text: &str) -> Result<Lexeme, AllocError> {
    Ok(Lexeme {
        kind,
        text: Text::new(alloc, text)?,
        value: 0,
    })
}

fn words(alloc: Global, texts: &[&str]) -> Result<Vec<Lexeme>, AllocError> {
    let mut found = Vec::new(alloc);
    for text in texts {
        found.push(lexeme(alloc, LexemeKind::Word, text)?)?;
    }
    Ok(found)
}

#[test]
fn reads_a_table(rt: HostRuntime) -> Result<(), Fail> {
    let alloc = rt.alloc();
    let mut tokens = Vec::new(alloc);
    tokens.push(lexeme(alloc, LexemeKind::Create, "create")?)?;
    tokens.append(&mut words(alloc, &["Streaming", "table", "orders"])?)?;
    tokens.push(lexeme(alloc, LexemeKind::Semicolon, "")?)?;
    let read = read_tokens(alloc, tokens.as_slice());
    assert!(rt; matches!(&read, Ok(list) if list.len() == 1));
    let Ok(list) = read else { return Ok(()) };
    assert!(rt; matches!(list.as_slice(), [Statement::Table { select: None, .. }]));
    Ok(())
}

#[test]
fn refuses(rt: HostRuntime) -> Result<(), Fail> {
    let alloc = rt.alloc();
    assert!(rt; read_tokens(alloc, &[]).is_ok());
    let mut alone = Vec::new(alloc);
    alone.push(lexeme(alloc, LexemeKind::Semicolon, "")?)?;
    assert!(rt;
        matches!(
            read_tokens(alloc, alone.as_slice()),
            Err(Refusal::Unexpected { at: 0 })
        )
    );
    let select = words(alloc, &["orders"])?;
    assert!(rt;
        matches!(
            read_tokens(alloc, select.as_slice()),
            Err(Refusal::Unexpected { at: 0 })
        )
    );
    let cut = words(alloc, &["apply", "changes", "into"])?;
    assert!(rt;
        matches!(
            read_tokens(alloc, cut.as_slice()),
            Err(Refusal::Unexpected { at: 3 })
        )
    );
    Ok(())
}
