use crate::reader::read;
use sql_print::print;
use sql_tokens::SqlRefusal;
use std::alloc::{AllocError, Global};
use std::test::Fail;
use value_core::Text;

/// The canonical print of a text's statements.
fn printed(alloc: Global, text: &str) -> Result<Text, SqlRefusal> {
    let statements = read(alloc, text.as_bytes())?;
    let print = print(alloc, &statements)?;
    Ok(print)
}

/// Whether a text has this canonical print, which is its own.
fn prints_as(alloc: Global, text: &str, wanted: &str) -> bool {
    let Ok(first) = printed(alloc, text) else {
        return false;
    };
    let Ok(second) = printed(alloc, first.as_str()) else {
        return false;
    };
    first.as_str() == wanted && second.as_str() == wanted
}

/// Whether the print of a text is printed again as it is.
fn prints_again(alloc: Global, text: &str) -> bool {
    let Ok(first) = printed(alloc, text) else {
        return false;
    };
    let Ok(second) = printed(alloc, first.as_str()) else {
        return false;
    };
    first.as_str() == second.as_str()
}

/// Why a text is refused.
fn refusal(alloc: Global, text: &[u8]) -> Option<SqlRefusal> {
    match read(alloc, text) {
        Ok(_) => None,
        Err(refusal) => Some(refusal),
    }
}

#[test]
fn tables_are_printed(rt: HostRuntime) -> Result<(), Fail> {
    let alloc = rt.alloc();
    assert!(rt;
        prints_as(
            alloc,
            "CREATE STREAMING TABLE t AS SELECT a FROM STREAM read_files('in', format => 'json', schema => 'a BIGINT')",
            "CREATE OR REFRESH STREAMING TABLE t AS SELECT a FROM STREAM read_files ( 'in' , format => 'json' , schema => 'a BIGINT' )"
        )
    );
    assert!(rt;
        prints_as(
            alloc,
            "CREATE OR REFRESH STREAMING TABLE t AS SELECT * FROM STREAM\n read_files('in', format => 'json', schema => 'a BIGINT');\nCREATE OR REFRESH MATERIALIZED VIEW v AS SELECT count(*) AS n, sum(a) AS s FROM t;\n",
            "CREATE OR REFRESH STREAMING TABLE t AS SELECT * FROM STREAM read_files ( 'in' , format => 'json' , schema => 'a BIGINT' ) ; CREATE OR REFRESH MATERIALIZED VIEW v AS SELECT count ( * ) AS n , sum ( a ) AS s FROM t"
        )
    );
    assert!(rt;
        prints_as(
            alloc,
            "CREATE OR REFRESH STREAMING TABLE customers_clean (\n CONSTRAINT valid_id EXPECT (id IS NOT NULL) ON VIOLATION DROP ROW,\n CONSTRAINT has_city EXPECT (city IS NOT NULL OR op = 'DELETE'))\n AS SELECT id, name, city, op, seq FROM STREAM(customers_bronze);",
            "CREATE OR REFRESH STREAMING TABLE customers_clean ( CONSTRAINT valid_id EXPECT ( ( id IS NOT NULL ) ) ON VIOLATION DROP ROW , CONSTRAINT has_city EXPECT ( ( ( city IS NOT NULL ) OR ( op = 'DELETE' ) ) ) ) AS SELECT id , name , city , op , seq FROM STREAM customers_bronze"
        )
    );
    Ok(())
}

#[test]
fn change_feeds_are_printed(rt: HostRuntime) -> Result<(), Fail> {
    let alloc = rt.alloc();
    assert!(rt;
        prints_as(
            alloc,
            "CREATE OR REFRESH STREAMING TABLE target;\nCREATE FLOW f AS AUTO CDC INTO target\nFROM STREAM read_files('users', format => 'json', schema =>\n 'userId INT, name STRING, city STRING, operation STRING, sequenceNum BIGINT')\nKEYS (userId) APPLY AS DELETE WHEN operation = 'DELETE'\nAPPLY AS TRUNCATE WHEN operation = 'TRUNCATE' SEQUENCE BY sequenceNum\nCOLUMNS * EXCEPT (operation, sequenceNum) STORED AS SCD TYPE 1;\n",
            "CREATE OR REFRESH STREAMING TABLE target ; CREATE FLOW f AS AUTO CDC INTO target FROM STREAM read_files ( 'users' , format => 'json' , schema => 'userId INT, name STRING, city STRING, operation STRING, sequenceNum BIGINT' ) KEYS ( userId ) APPLY AS DELETE WHEN ( operation = 'DELETE' ) APPLY AS TRUNCATE WHEN ( operation = 'TRUNCATE' ) SEQUENCE BY sequenceNum COLUMNS * EXCEPT ( operation , sequenceNum ) STORED AS SCD TYPE 1"
        )
    );
    assert!(rt;
        prints_as(
            alloc,
            "apply changes into t from stream(s) keys (a) ignore null updates sequence by struct(a, b) columns a, b stored as scd type 2 track history on * except (`select`)",
            "CREATE FLOW t AS AUTO CDC INTO t FROM STREAM s KEYS ( a ) IGNORE NULL UPDATES SEQUENCE BY STRUCT ( a , b ) COLUMNS ( a , b ) STORED AS SCD TYPE 2 TRACK HISTORY ON * EXCEPT ( `select` )"
        )
    );
    Ok(())
}

#[test]
fn pipelines_are_printed_again(rt: HostRuntime) -> Result<(), Fail> {
    let alloc = rt.alloc();
    let texts = [
        "",
        "/* no /* statements */ */ -- at all",
        "CREATE OR REFRESH STREAMING TABLE target;\nCREATE FLOW f AS AUTO CDC INTO target\nFROM STREAM read_files('users', format => 'json', schema =>\n 'userId INT, name STRING, city STRING, operation STRING, sequenceNum BIGINT')\nKEYS (userId) APPLY AS DELETE WHEN operation = 'DELETE' SEQUENCE BY sequenceNum\nCOLUMNS * EXCEPT (operation, sequenceNum) STORED AS SCD TYPE 2 TRACK HISTORY ON * EXCEPT (city);\n",
        "CREATE OR REFRESH STREAMING TABLE customers_bronze AS SELECT * FROM STREAM\n read_files('customers', format => 'csv', header => true, schema =>\n 'id INT, name STRING, city STRING, op STRING, seq BIGINT', rescuedDataColumn => '_rescued_data');\nCREATE OR REFRESH STREAMING TABLE customers_clean (\n CONSTRAINT valid_id EXPECT (id IS NOT NULL) ON VIOLATION DROP ROW,\n CONSTRAINT has_city EXPECT (city IS NOT NULL OR op = 'DELETE'))\n AS SELECT id, name, city, op, seq FROM STREAM(customers_bronze);\nCREATE OR REFRESH STREAMING TABLE customers;\nCREATE FLOW customers_cdc AS AUTO CDC INTO customers FROM STREAM(customers_clean)\n KEYS (id) APPLY AS DELETE WHEN op = 'DELETE' SEQUENCE BY seq\n COLUMNS * EXCEPT (op, seq) STORED AS SCD TYPE 2;\nCREATE OR REFRESH STREAMING TABLE orders (\n CONSTRAINT paid EXPECT (amount >= 0) ON VIOLATION FAIL UPDATE)\n AS SELECT orderId, customer, amount FROM STREAM read_files('orders',\n format => 'json', schema => 'orderId BIGINT, customer INT, amount BIGINT');\nCREATE OR REFRESH MATERIALIZED VIEW spend AS SELECT customer, count(*) AS n,\n sum(amount) AS total, max(amount) AS top FROM orders GROUP BY customer;\nCREATE OR REFRESH MATERIALIZED VIEW city_now AS SELECT city, count(*) AS n\n FROM customers WHERE __END_AT IS NULL GROUP BY city;\n",
        "CREATE OR REFRESH STREAMING TABLE history;\nCREATE FLOW changes AS AUTO CDC INTO history FROM STREAM read_files('in', format => 'json',\n schema => 'id INT, city STRING, op STRING, seq BIGINT') KEYS (id)\n APPLY AS DELETE WHEN op = 'DELETE' SEQUENCE BY seq COLUMNS * EXCEPT (op, seq)\n STORED AS SCD TYPE 2;\nCREATE OR REFRESH MATERIALIZED VIEW per_city AS SELECT city, count(*) AS n\n FROM history GROUP BY city;\n",
    ];
    for text in texts {
        assert!(rt; prints_again(alloc, text), "{text}");
    }
    Ok(())
}

#[test]
fn statements_are_refused_at_a_token(rt: HostRuntime) -> Result<(), Fail> {
    let alloc = rt.alloc();
    let cases: [(&str, u32); 27] = [
        (";", 0),
        ("SELECT 1", 0),
        ("CREATE", 6),
        ("CREATE STREAMING VIEW v", 17),
        ("CREATE STREAMING TABLE select", 23),
        ("CREATE STREAMING TABLE t ()", 26),
        ("CREATE STREAMING TABLE t (a FLOAT)", 28),
        (
            "CREATE STREAMING TABLE t (CONSTRAINT c EXPECT (a) ON VIOLATION",
            62,
        ),
        ("CREATE STREAMING TABLE t AS SELECT a AS FROM s", 40),
        ("CREATE STREAMING TABLE t AS SELECT a FROM read_files()", 53),
        ("CREATE MATERIALIZED VIEW v", 26),
        ("CREATE FLOW f AS SELECT a FROM t", 17),
        ("APPLY CHANGES INTO t FROM s KEYS a", 33),
        (
            "CREATE FLOW f AS AUTO CDC INTO t FROM s KEYS (a) SEQUENCE BY b STORED AS SCD TYPE 3",
            82,
        ),
        (
            "CREATE MATERIALIZED VIEW v AS SELECT a FROM t WHERE a = b = c",
            58,
        ),
        (
            "CREATE MATERIALIZED VIEW v AS SELECT a FROM t WHERE a IN ()",
            58,
        ),
        ("CREATE MATERIALIZED VIEW v AS SELECT CASE a END FROM t", 42),
        (
            "CREATE MATERIALIZED VIEW v AS SELECT CAST(a AS FLOAT) FROM t",
            47,
        ),
        ("CREATE MATERIALIZED VIEW v AS SELECT * EXCEPT a FROM t", 46),
        ("CREATE OR STREAMING TABLE t", 10),
        ("CREATE STREAMING TABLE t COMMENT AS SELECT a FROM s", 33),
        ("CREATE FLOW f AS INSERT INTO t SELECT a FROM s", 31),
        (
            "APPLY CHANGES INTO t FROM s KEYS (a) IGNORE UPDATES SEQUENCE BY b",
            44,
        ),
        (
            "APPLY CHANGES INTO t FROM s KEYS (a) APPLY AS INSERT WHEN a SEQUENCE BY b",
            46,
        ),
        (
            "APPLY CHANGES INTO t FROM s KEYS (a) SEQUENCE BY STRUCT b",
            56,
        ),
        (
            "CREATE MATERIALIZED VIEW v AS SELECT a FROM STREAM read_files('in', 'json')",
            68,
        ),
        ("CREATE MATERIALIZED VIEW v AS SELECT a FROM t GROUP a", 52),
    ];
    for (text, at) in cases {
        assert!(rt;
            refusal(alloc, text.as_bytes()) == Some(SqlRefusal::Unexpected { at }),
            "{text}"
        );
    }
    Ok(())
}

/// Why a view with this condition is refused.
fn refusal_of(alloc: Global, condition: &str) -> Result<Option<SqlRefusal>, AllocError> {
    let mut text = String::from_str(
        alloc,
        "CREATE MATERIALIZED VIEW v AS SELECT a FROM t WHERE ",
    )?;
    text.push_str(condition)?;
    Ok(refusal(alloc, text.as_bytes()))
}

#[test]
fn each_form_of_an_expression_is_read_or_refused(rt: HostRuntime) -> Result<(), Fail> {
    let alloc = rt.alloc();
    let cases: [(&str, Option<u32>); 47] = [
        ("a OR b AND c", None),
        ("a OR", Some(56)),
        ("a AND b", None),
        ("AND a", Some(52)),
        ("NOT NOT a", None),
        ("NOT", Some(55)),
        ("a = b", None),
        ("a <> 1 OR a != 2 OR a == 3", None),
        ("a < = b", Some(56)),
        ("(a < b) = (a >= b)", None),
        ("a IS NULL", None),
        ("a IS NOT NULL", None),
        ("a IS b", Some(57)),
        ("a IN (1)", None),
        ("a NOT IN (1, b)", None),
        ("a NOT b", Some(58)),
        ("a BETWEEN 1 AND 2 AND b", None),
        ("a NOT BETWEEN 1 AND 2", None),
        ("a BETWEEN 1 OR 2", Some(64)),
        ("a + b - c || d", None),
        ("a +", Some(55)),
        ("a * b DIV c % d", None),
        ("a * * b", Some(56)),
        ("- + -1", None),
        ("-", Some(53)),
        ("-9223372036854775808", None),
        ("7", None),
        ("'x'", None),
        ("TRUE", None),
        ("NULL", None),
        ("`a b`", None),
        ("DELETE", None),
        ("ELSE", Some(52)),
        ("(a)", None),
        ("(a", Some(54)),
        ("CASE WHEN a THEN 1 WHEN b THEN 2 ELSE 3 END", None),
        ("CASE WHEN a END", Some(64)),
        ("CAST(a AS LONG)", None),
        ("TRY_CAST(a AS STRING)", None),
        ("CAST(a AS)", Some(61)),
        ("coalesce(a, 1)", None),
        ("coalesce()", Some(61)),
        ("coalesce = count", None),
        ("count(*) = count(a)", None),
        ("count(*, a)", Some(59)),
        ("sum(a) + min(a) + max(a)", None),
        ("sum(*)", Some(56)),
    ];
    for (condition, at) in cases {
        let wanted = at.map(|at| SqlRefusal::Unexpected { at });
        assert!(rt; refusal_of(alloc, condition)? == wanted, "{condition}");
    }
    Ok(())
}

#[test]
fn each_form_of_a_statement_is_read(rt: HostRuntime) -> Result<(), Fail> {
    let alloc = rt.alloc();
    let texts = [
        "CREATE STREAMING TABLE t;",
        "CREATE STREAMING TABLE t (a BOOLEAN, b INT, c INTEGER, d BIGINT, e LONG, f STRING)",
        "CREATE OR REFRESH STREAMING TABLE t (a INT COMMENT 'x', CONSTRAINT c EXPECT (a > 0) ON VIOLATION FAIL UPDATE) COMMENT 'y' AS SELECT a b, a AS c FROM STREAM s",
        "CREATE OR REFRESH MATERIALIZED VIEW v COMMENT 'x' AS SELECT * EXCEPT (a, b) FROM t GROUP BY a, b + 1",
        "CREATE MATERIALIZED VIEW v AS SELECT a FROM read_files",
        "CREATE FLOW f AS INSERT INTO t BY NAME SELECT a FROM read_files('in', header => FALSE)",
        "CREATE FLOW f AS APPLY CHANGES INTO t FROM STREAM (s) KEYS (a) SEQUENCE BY b",
        "APPLY CHANGES INTO t FROM s KEYS (a, b) APPLY AS DELETE WHEN a = 1 APPLY AS TRUNCATE WHEN b SEQUENCE BY STRUCT (a, b) COLUMNS (a, b) STORED AS SCD TYPE 2 TRACK HISTORY ON a, b",
    ];
    for text in texts {
        assert!(rt; refusal(alloc, text.as_bytes()).is_none(), "{text}");
    }
    Ok(())
}

#[test]
fn tokens_are_refused_before_statements(rt: HostRuntime) -> Result<(), Fail> {
    let alloc = rt.alloc();
    assert!(rt; refusal(alloc, b"SELECT 'x") == Some(SqlRefusal::BadToken { at: 7 }));
    assert!(rt; refusal(alloc, b"SELECT 1 'x") == Some(SqlRefusal::BadToken { at: 9 }));
    assert!(rt; refusal(alloc, b"? \xff") == Some(SqlRefusal::BadToken { at: 2 }));
    assert!(rt;
        refusal(alloc, b"SELECT 9223372036854775808 ?")
            == Some(SqlRefusal::LiteralTooLarge { at: 7 })
    );
    Ok(())
}

/// A view whose condition is so many names and one less OR.
fn with_names(alloc: Global, count: usize) -> Result<String, AllocError> {
    let mut text = String::new(alloc);
    text.push_str("CREATE MATERIALIZED VIEW v AS SELECT a FROM t WHERE a")?;
    for _ in 1..count {
        text.push_str(" OR a")?;
    }
    Ok(text)
}

#[test]
fn the_513th_token_of_an_expression_is_refused(rt: HostRuntime) -> Result<(), Fail> {
    let alloc = rt.alloc();
    let long = with_names(alloc, 256)?;
    assert!(rt; refusal(alloc, long.as_bytes()).is_none());
    let longer = with_names(alloc, 257)?;
    assert!(rt; refusal(alloc, longer.as_bytes()) == Some(SqlRefusal::ExprTooLong { at: 1332 }));
    Ok(())
}

/// The beginning of a query, and then so many parentheses.
fn with_parentheses(alloc: Global, count: usize) -> Result<String, AllocError> {
    let mut text = String::from_str(alloc, "CREATE STREAMING TABLE t AS SELECT ")?;
    for _ in 0..count {
        text.push('(')?;
    }
    Ok(text)
}

fn spaces(alloc: Global, count: usize) -> Result<Vec<u8>, AllocError> {
    vec![in alloc; b' '; count]
}

#[test]
fn a_text_that_is_too_long_is_refused_for_that(rt: HostRuntime) -> Result<(), Fail> {
    let alloc = rt.alloc();
    let nested = with_parentheses(alloc, 600)?;
    assert!(rt; refusal(alloc, nested.as_bytes()) == Some(SqlRefusal::ExprTooLong { at: 547 }));
    let blank = spaces(alloc, 1_048_577)?;
    assert!(rt; refusal(alloc, &blank) == Some(SqlRefusal::TextTooLong));
    Ok(())
}
