use crate::TreeTable;
use sql_tree::{SqlExpr, SqlOp};
use sqlite_items::Boxed;
use std::alloc::{AllocError, Global};
use std::test::Fail;
use value_core::{Name, Text};

/// A written expression, or none for want of memory.
type Tree = Result<Boxed<SqlExpr>, AllocError>;

fn number(alloc: Global, number: i64) -> Tree {
    Boxed::new(alloc, SqlExpr::Number(number))
}

fn text(alloc: Global, text: &str) -> Tree {
    let text = Text::new(alloc, text)?;
    Boxed::new(alloc, SqlExpr::Str(text))
}

fn name(alloc: Global, name: &str) -> Tree {
    let name = Name::new(alloc, name)?;
    Boxed::new(alloc, SqlExpr::Name(name))
}

fn less(alloc: Global, left: Tree, right: Tree) -> Tree {
    let left = left?;
    let right = right?;
    let op = SqlOp::Lt;
    Boxed::new(alloc, SqlExpr::Binary { op, left, right })
}

fn list(alloc: Global, first: Tree, second: Tree, third: Tree) -> Result<Vec<SqlExpr>, AllocError> {
    let mut list = Vec::new(alloc);
    list.push(first?.into_inner())?;
    list.push(second?.into_inner())?;
    list.push(third?.into_inner())?;
    Ok(list)
}

// The place of an expression among `a < 1`, `'A'` and `B < -1`.
fn place(alloc: Global, tree: Tree) -> Result<Option<u32>, AllocError> {
    let first = less(alloc, name(alloc, "a"), number(alloc, 1));
    let third = less(alloc, name(alloc, "B"), number(alloc, -1));
    let trees = list(alloc, first, text(alloc, "A"), third)?;
    let table = TreeTable::new(alloc, trees.as_slice())?;
    table.place(alloc, tree?.get())
}

#[test]
fn names_are_folded_and_texts_are_not(rt: HostRuntime) -> Result<(), Fail> {
    let m = rt.alloc();
    assert!(rt; place(m, less(m, name(m, "A"), number(m, 1)))? == Some(0));
    assert!(rt; place(m, less(m, name(m, "b"), number(m, -1)))? == Some(2));
    assert!(rt; place(m, text(m, "A"))? == Some(1));
    assert!(rt; place(m, text(m, "a"))? == None);
    assert!(rt; place(m, less(m, name(m, "b"), number(m, 1)))? == None);
    Ok(())
}
