ghost use Rattle.std.specs.Prelude.{◌≡◌, [], IfOk, OnOk};
ghost use Rattle.line_rows.specs.Readings as spec;

use std::alloc::{AllocError, Global};
use value_core::{Column, Row, Value};

/// What a line gives to the columns that take what it has.
#[derive(Drop)]
pub struct Reading {
    /// The value of each column, in order.
    pub values: Row,
    /// Whether the line has something that no column takes.
    pub is_rescued: bool,
}

impl Reading {
    /// No values yet, of a line that has something no column names, or has nothing of that kind.
    pub fn new(alloc: Global, has_stray: bool) -> Reading
        ensures { result ≡ spec.reading_of [] has_stray }
    {
        Reading {
            values: Row::new(alloc),
            is_rescued: has_stray,
        }
    }

    /// Adds what the next column takes: NULL where it refuses what the line has, which is rescued then.
    pub fn push(&mut self, taken: Option<Value>) -> Result<(), AllocError>
        ensures { OnOk result (self.new ≡ spec.with_taken self.old taken) }
    {
        self.is_rescued = self.is_rescued || taken.is_none();
        self.values.push(taken.unwrap_or(Value::Null))
    }

    /// The reading of a malformed line: NULL in each column.
    pub fn malformed(alloc: Global, columns: &[Column]) -> Result<Reading, AllocError>
        ensures { IfOk result (λ reading. reading ≡ spec.malformed columns.now) }
    {
        let mut values = Row::new(alloc);
        for _column in columns {
            values.push(Value::Null)?;
        }
        Ok(Reading {
            values,
            is_rescued: true,
        })
    }
}
