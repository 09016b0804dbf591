use value_core::Event;

/// What an event is beside those that are kept. Two events of one key and one sequence are of one moment; all
/// truncates have one key, which is the empty row.
#[derive(Debug, Drop)]
pub enum Insertion {
    /// No event of its moment is kept.
    Fresh,
    /// An equal event is kept.
    Repeat,
    /// Another event of its moment is kept, which differs in kind or columns.
    Tied { kept: Event },
}
