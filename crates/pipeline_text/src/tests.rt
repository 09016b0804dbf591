use crate::{Pipeline, built_pipelines_are_append_tables, pipeline_of};
use disk_model::SureSource;
use message_text::Refusal;
use std::alloc::Global;
use std::test::Fail;

const TABLE: &str =
    "CREATE OR REFRESH STREAMING TABLE t AS SELECT a FROM STREAM read_files('in', format => 'json', schema => 'a BIGINT');\n";

const VIEW: &str =
    "CREATE OR REFRESH STREAMING TABLE t AS SELECT a FROM STREAM read_files('in', format => 'json', schema => 'a BIGINT');\nCREATE OR REFRESH MATERIALIZED VIEW v AS SELECT a FROM t;\n";

/// The pipeline of a text that is read, and then known.
fn known(alloc: Global, text: &str) -> Result<Pipeline, Refusal> {
    let mut source = SureSource::new(alloc, text.as_bytes())?;
    let pipeline = pipeline_of(alloc, &mut source, None)?;
    pipeline_of(alloc, &mut source, Some(pipeline))
}

/// How many datasets the plan of a text has, and the statement that an update can't run.
fn told(alloc: Global, text: &str) -> Option<(usize, Option<u32>)> {
    match known(alloc, text) {
        Ok(pipeline) => Some((pipeline.plan.as_slice().len(), pipeline.unbuilt)),
        Err(_) => None,
    }
}

#[test]
fn a_text_has_a_pipeline(rt: HostRuntime) -> Result<(), Fail> {
    let alloc = rt.alloc();
    assert!(rt; told(alloc, TABLE) == Some((1, None)));
    assert!(rt; told(alloc, VIEW) == Some((2, Some(2))));
    assert!(rt; told(alloc, "CREATE").is_none());
    Ok(())
}

#[test]
fn the_law_is_stated(_rt: HostRuntime) -> Result<(), Fail> {
    built_pipelines_are_append_tables();
    Ok(())
}
