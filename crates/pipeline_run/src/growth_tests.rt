// Tables over CSV and over JSON, whose files grow.
use crate::Status;
use crate::test_devices::{ran_over, shown};
use disk_model::SureDisk;
use landing_core::SureLanding;
use std::alloc::Global;
use std::process::Abort;
use std::test::Fail;

/// What a file gains, the line that the next update prints, and what the store shows then.
struct Growth {
    bytes: &'static [u8],
    line: &'static [u8],
    shown: &'static str,
}

/// A pipeline, its table, a file of its folder, and how that file grows.
#[derive(Drop)]
struct Grown {
    text: &'static str,
    table: &'static str,
    folder: &'static str,
    file: &'static str,
    growths: &'static [Growth],
}

const CSV: Grown = Grown {
    text: "CREATE STREAMING TABLE `t|x` AS SELECT `_r|`, ID AS `k\\`, Name FROM STREAM read_files('/in/csv/', format => 'csv', schema => 'id INT, name STRING', header => 'true', sep => ';', rescuedDataColumn => '_r|')",
    table: "t|x",
    folder: "in/csv",
    file: "f|.csv",
    growths: &[
        Growth {
            bytes: b"name;id\nann;1\n",
            line: b"flow t\\|x into t\\|x: completed, 1 rows read, version 1\n",
            shown: "+-|1|ann|;read f|.csv 14",
        },
        Growth {
            bytes: b"bob;2;c\ncy;x\ndan;",
            line: b"flow t\\|x into t\\|x: completed, 2 rows read, version 2\n",
            shown: "+-|1|ann|;+bob;2;c|2|bob|;cy;x|-|cy|;read f|.csv 27",
        },
        Growth {
            bytes: b"",
            line: b"flow t\\|x into t\\|x: current\n",
            shown: "+-|1|ann|;+bob;2;c|2|bob|;cy;x|-|cy|;read f|.csv 27",
        },
    ],
};

const JSON: Grown = Grown {
    text: "CREATE STREAMING TABLE T AS SELECT *, B AS again FROM STREAM read_files('in', format => 'json', schema => 'a BIGINT, b BOOLEAN', rescuedDataColumn => 'more')",
    table: "T",
    folder: "in",
    file: "a.json",
    growths: &[
        Growth {
            bytes: b"{\"a\":1,\"b\":true}\n",
            line: b"flow T into T: completed, 1 rows read, version 1\n",
            shown: "+1|true|-|true|;read a.json 17",
        },
        Growth {
            bytes: b"{\"a\":2,\"c\":3}\n{\"a\":\"x\"}\n",
            line: b"flow T into T: completed, 2 rows read, version 2\n",
            shown: "+1|true|-|true|;+-|-|{\"a\":\"x\"}|-|;2|-|{\"a\":2,\"c\":3}|-|;read a.json 41",
        },
    ],
};

/// A header line names the columns, though no option says that there is one.
const LINES: Grown = Grown {
    text: "CREATE STREAMING TABLE t AS SELECT * FROM STREAM read_files('in', format => 'csv', schema => 'id INT, name STRING, vip BOOLEAN', rescuedDataColumn => '_rescued_data')",
    table: "t",
    folder: "in",
    file: "a.csv",
    growths: &[Growth {
        bytes: b"id,name,vip\n1,\"Lee, Ann\",TRUE\nx,Bob,\n2,,false,extra\n",
        line: b"flow t into t: completed, 3 rows read, version 1\n",
        shown: "+-|Bob|-|x,Bob,|;1|Lee, Ann|true|-|;2|-|false|2,,false,extra|;read a.csv 52",
    }],
};

/// Each growth is taken, told and shown.
fn grows(rt: &impl Abort, alloc: Global, grown: &Grown) -> Result<(SureDisk, SureLanding), Fail> {
    let mut disk = SureDisk::new(alloc, b"", b"", 4096)?;
    let mut landing = SureLanding::new(alloc);
    for growth in grown.growths {
        landing.grow(grown.folder, grown.file, growth.bytes)?;
        let (status, out) = ran_over(alloc, "update", grown.text, &mut disk, &mut landing)?;
        assert!(rt; status == Status::Ok);
        assert!(rt; out.bytes() == growth.line);
        assert!(rt; shown(alloc, &mut disk, grown.table)?.as_str() == growth.shown);
    }
    Ok((disk, landing))
}

#[test]
fn a_table_over_csv_grows(rt: HostRuntime) -> Result<(), Fail> {
    let alloc = rt.alloc();
    let (mut disk, mut landing) = grows(&rt, alloc, &CSV)?;
    landing.put(CSV.folder, CSV.file, b"abc")?;
    let (status, out) = ran_over(alloc, "update", CSV.text, &mut disk, &mut landing)?;
    assert!(rt; status == Status::Stopped);
    assert!(rt;
        out.bytes()
            == b"flow t\\|x into t\\|x: stopped: file f\\|.csv shrunk: cursor 27, size 3\n".as_slice()
    );
    Ok(())
}

#[test]
fn tables_over_json_and_over_lines_with_a_header_grow(rt: HostRuntime) -> Result<(), Fail> {
    let (_disk, _landing) = grows(&rt, rt.alloc(), &JSON)?;
    let (_disk, _landing) = grows(&rt, rt.alloc(), &LINES)?;
    Ok(())
}
