use crate::{PIPELINE, lines};
use std::test::Fail;

#[test]
fn four_lines(rt: HostRuntime) -> Result<(), Fail> {
    let text = lines(rt.alloc(), 4)?;
    let expected = b"{\"id\":0,\"city\":\"c0\",\"op\":\"DELETE\",\"seq\":5}
{\"id\":37,\"city\":\"c1\",\"op\":\"UPDATE\",\"seq\":4}
{\"id\":74,\"city\":\"c4\",\"op\":\"UPDATE\",\"seq\":7}
{\"id\":10,\"city\":\"c2\",\"op\":\"UPDATE\",\"seq\":6}
";
    assert!(rt; text.as_slice() == expected.as_slice());
    assert!(rt; PIPELINE.starts_with("CREATE OR REFRESH STREAMING TABLE history;"));
    Ok(())
}
