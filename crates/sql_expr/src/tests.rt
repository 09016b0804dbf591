use crate::entry::read;
use crate::error::Refusal;
use sql_tree::{Lexeme, LexemeKind, SqlExpr, SqlOp};
use std::alloc::{AllocError, Global};
use std::test::Fail;
use value_core::Text;

fn token(alloc: Global, kind: LexemeKind) -> Result<Lexeme, AllocError> {
    Ok(Lexeme {
        kind,
        text: Text::new(alloc, "")?,
        value: 7,
    })
}

fn all(alloc: Global, kinds: &[LexemeKind]) -> Result<Vec<Lexeme>, AllocError> {
    let mut tokens = Vec::new(alloc);
    for kind in kinds {
        tokens.push(token(alloc, *kind)?)?;
    }
    Ok(tokens)
}

fn refused(alloc: Global, kinds: &[LexemeKind]) -> Result<Option<Refusal>, AllocError> {
    let tokens = all(alloc, kinds)?;
    Ok(match read(alloc, tokens.as_slice()) {
        Ok(_) => None,
        Err(refusal) => Some(refusal),
    })
}

#[test]
fn groups(rt: HostRuntime) -> Result<(), Fail> {
    let alloc = rt.alloc();
    let tokens = all(
        alloc,
        &[
            LexemeKind::Word,
            LexemeKind::Or,
            LexemeKind::Not,
            LexemeKind::Word,
            LexemeKind::Eq,
            LexemeKind::Number,
            LexemeKind::Star,
            LexemeKind::Word,
        ],
    )?;
    let tree = read(alloc, tokens.as_slice());
    assert!(rt; matches!(&tree, Ok(SqlExpr::Binary { op: SqlOp::Or, .. })));
    Ok(())
}

#[test]
fn refuses(rt: HostRuntime) -> Result<(), Fail> {
    let alloc = rt.alloc();
    let twice = [
        LexemeKind::Word,
        LexemeKind::Eq,
        LexemeKind::Word,
        LexemeKind::Eq,
        LexemeKind::Word,
    ];
    assert_eq!(rt;
        refused(alloc, &twice)?,
        Some(Refusal::Unexpected { at: 3 })
    );
    let inner = [
        LexemeKind::Number,
        LexemeKind::Plus,
        LexemeKind::Not,
        LexemeKind::Word,
    ];
    assert_eq!(rt;
        refused(alloc, &inner)?,
        Some(Refusal::Unexpected { at: 2 })
    );
    assert_eq!(rt; refused(alloc, &[])?, Some(Refusal::Unexpected { at: 0 }));
    assert_eq!(rt;
        refused(alloc, &[LexemeKind::LParen; 600])?,
        Some(Refusal::Unexpected { at: 600 })
    );
    assert_eq!(rt;
        refused(
            alloc,
            &[
                LexemeKind::Word,
                LexemeKind::Not,
                LexemeKind::In,
                LexemeKind::LParen,
                LexemeKind::Minus,
                LexemeKind::Number,
                LexemeKind::Comma,
                LexemeKind::Str,
                LexemeKind::RParen
            ]
        )?,
        None
    );
    assert_eq!(rt;
        refused(
            alloc,
            &[
                LexemeKind::Word,
                LexemeKind::Between,
                LexemeKind::Number,
                LexemeKind::And,
                LexemeKind::Number,
                LexemeKind::And,
                LexemeKind::True
            ]
        )?,
        None
    );
    Ok(())
}

fn word(alloc: Global, text: &str) -> Result<Lexeme, AllocError> {
    Ok(Lexeme {
        kind: LexemeKind::Word,
        text: Text::new(alloc, text)?,
        value: 0,
    })
}

#[test]
fn calls(rt: HostRuntime) -> Result<(), Fail> {
    let alloc = rt.alloc();
    let mut count = Vec::new(alloc);
    count.push(word(alloc, "Count")?)?;
    count.push(token(alloc, LexemeKind::LParen)?)?;
    count.push(token(alloc, LexemeKind::Star)?)?;
    count.push(token(alloc, LexemeKind::RParen)?)?;
    assert!(rt; matches!(read(alloc, count.as_slice()), Ok(SqlExpr::CountAll)));
    let mut sum = Vec::new(alloc);
    sum.push(word(alloc, "sum")?)?;
    assert!(rt; matches!(read(alloc, sum.as_slice()), Ok(SqlExpr::Name(_))));
    sum.push(token(alloc, LexemeKind::LParen)?)?;
    sum.push(token(alloc, LexemeKind::Star)?)?;
    assert!(rt;
        matches!(
            read(alloc, sum.as_slice()),
            Err(Refusal::Unexpected { at: 2 })
        )
    );
    let mut cast = Vec::new(alloc);
    cast.push(token(alloc, LexemeKind::TryCast)?)?;
    cast.push(token(alloc, LexemeKind::LParen)?)?;
    cast.push(token(alloc, LexemeKind::Str)?)?;
    cast.push(token(alloc, LexemeKind::As)?)?;
    cast.push(word(alloc, "long")?)?;
    cast.push(token(alloc, LexemeKind::RParen)?)?;
    assert!(rt;
        matches!(
            read(alloc, cast.as_slice()),
            Ok(SqlExpr::Cast { trying: true, .. })
        )
    );
    Ok(())
}
