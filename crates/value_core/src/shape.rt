use crate::cursor::Format;
use crate::schema::Schema;

/// How a line becomes a row.
#[derive(Debug, Drop)]
pub struct Shape {
    pub format: Format,
    /// The columns in order. Where a column keeps the text of rescued lines, it is the last one.
    pub columns: Schema,
    /// Whether there is such a last column.
    pub rescued: bool,
    /// Whether the first line of a CSV file names its columns.
    pub header: bool,
    /// The byte between two fields of a CSV line.
    pub sep: u8,
}
