use crate::{print, print_placed};
use sql_tree::{
    OptionValue, Out, Outs, Select, SqlExpr, SqlExprs, SqlItems, SqlOp, SqlOption, SqlOptions,
    SqlOrigin, Statement, Statements,
};
use sqlite_items::Boxed;
use std::alloc::{AllocError, Global};
use std::test::Fail;
use value_core::{Name, Text};

fn string_option(alloc: Global, word: &str, value: &str) -> Result<SqlOption, AllocError> {
    Ok(SqlOption {
        word: Name::new(alloc, word)?,
        value: OptionValue::Str(Text::new(alloc, value)?),
    })
}

fn files(alloc: Global) -> Result<SqlOrigin, AllocError> {
    let mut options = SqlOptions::new(alloc);
    options.push(string_option(alloc, "format", "json")?)?;
    options.push(string_option(alloc, "schema", "a BIGINT")?)?;
    Ok(SqlOrigin::Files {
        stream: true,
        path: Text::new(alloc, "in")?,
        options,
    })
}

/// A table of the column `a` of the files, perhaps where it is above a number.
fn table(alloc: Global, above: Option<i64>) -> Result<Statement, AllocError> {
    let mut outs = Outs::new(alloc);
    outs.push(Out::One {
        expr: SqlExpr::Name(Name::new(alloc, "a")?),
        name: None,
    })?;
    let filter = match above {
        None => None,
        Some(number) => Some(SqlExpr::Binary {
            op: SqlOp::Gt,
            left: Boxed::new(alloc, SqlExpr::Name(Name::new(alloc, "a")?))?,
            right: Boxed::new(alloc, SqlExpr::Number(number))?,
        }),
    };
    Ok(Statement::Table {
        name: Name::new(alloc, "t")?,
        items: SqlItems::new(alloc),
        select: Some(Select {
            outs,
            origin: files(alloc)?,
            filter,
            groups: SqlExprs::new(alloc),
        }),
    })
}

#[test]
fn statements_are_printed(rt: HostRuntime) -> Result<(), Fail> {
    let alloc = rt.alloc();
    let mut statements = Statements::new(alloc);
    assert!(rt; print(alloc, &statements)?.as_str() == "");
    statements.push(table(alloc, None)?)?;
    let text = print(alloc, &statements)?;
    assert!(rt;
        text.as_str()
            == "CREATE OR REFRESH STREAMING TABLE t AS SELECT a FROM STREAM read_files ( 'in' , format => 'json' , schema => 'a BIGINT' )"
    );
    statements.push(table(alloc, Some(-5))?)?;
    let text = print(alloc, &statements)?;
    assert!(rt;
        text.as_str()
            == "CREATE OR REFRESH STREAMING TABLE t AS SELECT a FROM STREAM read_files ( 'in' , format => 'json' , schema => 'a BIGINT' ) ; CREATE OR REFRESH STREAMING TABLE t AS SELECT a FROM STREAM read_files ( 'in' , format => 'json' , schema => 'a BIGINT' ) WHERE ( a > -5 )"
    );
    let last = print_placed(alloc, statements.as_slice(), &[1])?;
    let copy = print_placed(alloc, statements.as_slice(), &[0, 1])?;
    assert!(rt; last.as_str().ends_with("WHERE ( a > -5 )") && last.as_str().starts_with("CREATE"));
    assert!(rt; copy.as_str() == text.as_str());
    Ok(())
}
