use crate::{changes_have_one_net, net, nets_follow, nets_within};
use std::alloc::{AllocError, Global};
use std::test::Fail;
use value_core::{ListOf, Row, Rows, Value};

/// Rows of one number each.
fn numbers(alloc: Global, numbers: &[i64]) -> Result<Rows, AllocError> {
    let mut rows: Rows = ListOf::new(alloc);
    for number in numbers {
        let mut row: Row = ListOf::new(alloc);
        row.push(Value::Big(*number))?;
        rows.push(row)?;
    }
    Ok(rows)
}

#[test]
fn what_is_in_both_stays(rt: HostRuntime) -> Result<(), Fail> {
    let alloc = rt.alloc();
    let old = numbers(alloc, &[5, 1, 3, 3, 3])?;
    let new = numbers(alloc, &[3, 4, 1, 1])?;
    let change = net(alloc, old, new)?;
    assert!(rt; change.removed.as_slice() == numbers(alloc, &[3, 3, 5])?.as_slice());
    assert!(rt; change.added.as_slice() == numbers(alloc, &[1, 4])?.as_slice());
    changes_have_one_net();
    nets_follow();
    nets_within();
    Ok(())
}
