// What is new of a source.
ghost use Rattle.std.specs.Prelude.{◌≡◌};
ghost use Rattle.plan_core.specs.declared.flow.Origin.{Origin as AnOrigin};
ghost use Rattle.row_flow.specs.Rows.{rows_of};
ghost use Rattle.flow_news.specs.Finds.{rows_given};

use landing_core::Fresh;
use plan_core::Stop;
use row_flow::Input;
use value_core::{Cursor, Rows};

/// Rows that follow on a position: lines that were read, or rows of another dataset.
#[derive(Drop)]
pub enum NewRows {
    Lines(Fresh),
    Rows(Rows),
}

impl NewRows {
    /// The rows as the input of a flow.
    pub fn input(&self) -> Input<'_>
        ensures { (from : AnOrigin) → rows_of from result ≡ rows_given from self.now }
    {
        match self {
            NewRows::Lines(fresh) => Input::Lines(fresh),
            NewRows::Rows(rows) => Input::Rows(rows),
        }
    }
}

/// What is new of a source to a flow that stands at a position.
#[derive(Drop)]
pub enum News {
    /// The position stays.
    Idle,
    /// The folder's listing or a read failed, or a file is listed shorter than its place.
    Halted(Stop),
    /// Rows, and the position behind them.
    Come { rows: NewRows, behind: Cursor },
    /// The flow can't go on from the position.
    Unfit,
}
