use crate::{
    Resolved, ResolvedOrigins, Source, all_resolved, batch_break, columns_read, origin_of,
    stream_break,
};
use plan_core::Origin;
use sql_tree::{Select, SqlOptions, SqlOrigin, Statement};
use sqlite_items::{Boxed, Items};
use statement_checks::CheckFault;
use std::alloc::{AllocError, Global};
use std::test::Fail;
use value_core::{Name, Text};

// A select of nothing from this origin.
fn select(alloc: Global, origin: SqlOrigin) -> Select {
    Select {
        outs: Items::new(alloc),
        origin,
        filter: None,
        groups: Items::new(alloc),
    }
}

fn files(alloc: Global) -> Result<SqlOrigin, AllocError> {
    let path = Text::new(alloc, "a//b")?;
    Ok(SqlOrigin::Files {
        stream: true,
        path,
        options: SqlOptions::new(alloc),
    })
}

fn view(alloc: Global, origin: SqlOrigin) -> Result<Boxed<Statement>, AllocError> {
    let name = Name::new(alloc, "v")?;
    Boxed::new(
        alloc,
        Statement::View {
            name,
            items: Items::new(alloc),
            select: select(alloc, origin),
        },
    )
}

// What a view over files in no folder reads.
fn resolved(alloc: Global) -> Result<ResolvedOrigins, AllocError> {
    let origin = files(alloc)?;
    let view = view(alloc, origin)?;
    let mut statements = Vec::new(alloc);
    statements.push(view.into_inner())?;
    all_resolved(alloc, statements.as_slice())
}

fn is_bad(all: &ResolvedOrigins, wanted: &str) -> bool {
    match all.as_slice().first() {
        Some(Resolved::Bad { word }) => word.as_str() == wanted,
        _ => false,
    }
}

#[test]
fn options_are_resolved_once(rt: HostRuntime) -> Result<(), Fail> {
    let all = resolved(rt.alloc())?;
    assert!(rt; is_bad(&all, "path"));
    Ok(())
}

fn dataset(alloc: Global, stream: bool) -> Result<Source, AllocError> {
    let name = Name::new(alloc, "t")?;
    Ok(Source::Dataset { stream, name })
}

fn is_named(origin: &Origin, wanted: &str) -> bool {
    match origin {
        Origin::Table { name } => name.as_str() == wanted,
        Origin::Files { dir: _, shape: _ } => false,
    }
}

fn flow_fault(alloc: Global, stream: bool) -> Result<Option<CheckFault>, AllocError> {
    let source = dataset(alloc, stream)?;
    stream_break(alloc, &source, None)
}

fn view_fault(alloc: Global, stream: bool) -> Result<Option<CheckFault>, AllocError> {
    let source = dataset(alloc, stream)?;
    batch_break(alloc, &source, None)
}

#[test]
fn streams_and_batches(rt: HostRuntime) -> Result<(), Fail> {
    let alloc = rt.alloc();
    assert!(rt;
        matches!(
            flow_fault(alloc, false)?,
            Some(CheckFault::NotStreaming { name: _ })
        )
    );
    assert!(rt;
        matches!(
            flow_fault(alloc, true)?,
            Some(CheckFault::UnknownName { name: _ })
        )
    );
    assert!(rt; matches!(view_fault(alloc, true)?, Some(CheckFault::NotBatch)));
    assert!(rt;
        matches!(
            view_fault(alloc, false)?,
            Some(CheckFault::UnknownName { name: _ })
        )
    );
    Ok(())
}

#[test]
fn what_is_read(rt: HostRuntime) -> Result<(), Fail> {
    let alloc = rt.alloc();
    let source = dataset(alloc, true)?;
    assert!(rt; columns_read(alloc, &source, None)?.is_empty());
    let origin = origin_of(alloc, &source)?;
    assert!(rt; is_named(&origin, "t"));
    Ok(())
}
