use crate::{Marks, add, admit};
use plan_core::{Action, Expectation, Expectations, Verdict};
use row_expr::{Comparison, Expr};
use sqlite_items::Boxed;
use std::alloc::{AllocError, Global};
use std::test::Fail;
use value_core::{Kind, ListOf, Name, Row, Tally, Text, Value};

fn crosses_threads<T: Send + Sync>() {}

#[test]
fn marks_cross_threads() {
    crosses_threads::<Marks>();
}

/// `a > bound`
fn is_above(alloc: Global, bound: i32) -> Result<Expr, AllocError> {
    let a = Boxed::new(alloc, Expr::Column(0, Kind::Int))?;
    let bound = Boxed::new(alloc, Expr::Literal(Value::Int(bound)))?;
    Ok(Expr::Compare(Comparison::Gt, a, bound))
}

/// `b IS NOT NULL`
fn is_known(alloc: Global) -> Result<Expr, AllocError> {
    let b = Boxed::new(alloc, Expr::Column(1, Kind::Str))?;
    let unknown = Boxed::new(alloc, Expr::IsNull(b))?;
    Ok(Expr::Not(unknown))
}

fn put(
    alloc: Global,
    expectations: &mut Expectations,
    name: &str,
    test: Expr,
    action: Action,
) -> Result<(), AllocError> {
    let name = Name::new(alloc, name)?;
    expectations.push(Expectation { name, test, action })?;
    Ok(())
}

/// `pos EXPECT (a > 0)`, `small EXPECT (a > -5) ON VIOLATION DROP ROW`, `known EXPECT (b IS NOT NULL)`
fn three_expectations(alloc: Global) -> Result<Expectations, AllocError> {
    let mut expectations = ListOf::new(alloc);
    put(
        alloc,
        &mut expectations,
        "pos",
        is_above(alloc, 0)?,
        Action::Warn,
    )?;
    put(
        alloc,
        &mut expectations,
        "small",
        is_above(alloc, -5)?,
        Action::DropRow,
    )?;
    put(
        alloc,
        &mut expectations,
        "known",
        is_known(alloc)?,
        Action::Warn,
    )?;
    Ok(expectations)
}

/// Whether the three expectations keep the row, and which of them it passes.
fn kept(alloc: Global, a: Value, b: Value) -> Result<Option<(bool, Marks)>, AllocError> {
    let expectations = three_expectations(alloc)?;
    let mut row: Row = ListOf::new(alloc);
    row.push(a)?;
    row.push(b)?;
    let mut marks = Marks::new(alloc, expectations.len())?;
    match admit(alloc, &expectations, &row, &mut marks) {
        Ok(Verdict::Keep) => Ok(Some((true, marks))),
        Ok(Verdict::DropIt) => Ok(Some((false, marks))),
        _ => Ok(None),
    }
}

/// Whether the row is kept or not, with these marks.
fn gives(found: Option<(bool, Marks)>, is_kept: bool, marks: &[bool]) -> bool {
    match found {
        Some((kept, found)) => kept == is_kept && found.as_slice() == marks,
        None => false,
    }
}

#[test]
fn a_dropped_row_is_marked_by_every_expectation(rt: HostRuntime) -> Result<(), Fail> {
    let m = rt.alloc();
    let x = kept(m, Value::Int(3), Value::Str(Text::new(m, "x")?))?;
    assert!(rt; gives(x, true, &[true, true, true]));
    let y = kept(m, Value::Int(-9), Value::Str(Text::new(m, "y")?))?;
    assert!(rt; gives(y, false, &[false, false, true]));
    let z = kept(m, Value::Null, Value::Str(Text::new(m, "z")?))?;
    assert!(rt; gives(z, false, &[false, false, true]));
    let absent = kept(m, Value::Int(-2), Value::Null)?;
    assert!(rt; gives(absent, true, &[false, true, false]));
    Ok(())
}

#[test]
fn counts_end_at_their_limit(rt: HostRuntime) {
    let mut kept = Tally {
        passed: 9223372036854775806,
        failed: 1,
    };
    let one = Tally {
        passed: 1,
        failed: 2,
    };
    assert!(rt; add(&mut kept, &one).is_none());
    assert!(rt; kept.passed == 9223372036854775807 && kept.failed == 3);
    assert!(rt; add(&mut kept, &one) == Some(9223372036854775808));
    assert!(rt; kept.passed == 9223372036854775807 && kept.failed == 3);
}
