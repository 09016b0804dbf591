/// What stands in place of a value.
#[derive(Clone, Copy, PartialEq, Eq, Debug)]
pub enum RowFault {
    /// The result is outside its kind.
    Overflow,
    /// A division by 0.
    ZeroDivisor,
    /// A CAST found no value.
    BadCast,
    /// Want of memory, which no definition gives.
    Memory,
}
