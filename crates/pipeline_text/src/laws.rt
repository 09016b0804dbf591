// A law of pipelines.
ghost use Rattle.std.specs.Prelude.{◌≡◌, ℕ, List, None, IsTrue};
ghost use Rattle.std.specs.List.{AllByRecursion};
ghost use Rattle.plan_core.specs.Sound.{is_append};
ghost use Rattle.pipeline_text.specs.declared.checked.Pipeline.{Pipeline as Checked};
ghost use Rattle.pipeline_text.specs.Pipelines.{IsPipeline};

use plan_check::plans_have_the_declared_names;

/// A law: where no statement is one that an update can't run, each dataset of the plan is an append table.
pub fn built_pipelines_are_append_tables()
    ensures { (text : List ℕ) (pipeline : Checked) → IsPipeline text pipeline → pipeline.unbuilt ≡ None → AllByRecursion (λ part. IsTrue (is_append part.body)) pipeline.plan }
{
    plans_have_the_declared_names();
}
