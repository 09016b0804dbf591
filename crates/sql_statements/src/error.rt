use std::alloc::AllocError;

/// Why a part of a pipeline was not read.
#[derive(Clone, Copy, Debug, PartialEq, Eq)]
pub enum ParseError {
    Memory,
    /// The reader stands at a token with which no pipeline goes on.
    Unexpected,
    /// The reader stands at a token that would go on an outermost expression past the most tokens.
    TooLong,
}

impl From<AllocError> for ParseError {
    ghost use Rattle.std.specs.Prelude.{◌≡◌};
    ghost use Rattle.sql_statements.specs.declared.error.ParseError.TheVariants.{Memory};

    ghost from_gives = { λ _ e. e ≡ Memory };

    fn from(_: AllocError) -> ParseError {
        ParseError::Memory
    }
}

/// Why tokens are no pipeline. Places count tokens from 0.
#[derive(Clone, Copy, Debug, PartialEq, Eq)]
pub enum Refusal {
    Memory,
    /// No pipeline goes on with the token at this place, or none ends at the end.
    Unexpected { at: usize },
    /// The token at this place goes on an outermost expression past the most tokens.
    TooLong { at: usize },
}
