/// Why tokens are no expression.
#[derive(Clone, Copy, Debug, PartialEq, Eq)]
pub enum Refusal {
    Memory,
    /// No expression goes on with the token at this place, or none ends at the end.
    Unexpected { at: usize },
}
