use std::alloc::AllocError;
use std::error::Error;
use std::fmt;

/// Why a part of the grammar was not read.
#[derive(Clone, Copy, Debug, PartialEq, Eq)]
pub enum ReadError {
    Memory,
    /// The reader stands at a token with which the part can not go on.
    Unexpected,
}

impl fmt::Display for ReadError {
    fn fmt<W: fmt::Write>(&self, f: &mut fmt::Formatter<W>) -> fmt::Result {
        f.write_str(match self {
            ReadError::Memory => "out of memory",
            ReadError::Unexpected => "unexpected token",
        })
    }
}

impl Error for ReadError {}

impl From<AllocError> for ReadError {
    ghost use Rattle.std.specs.Prelude.{◌≡◌};
    ghost use Rattle.sql_phrases.specs.declared.error.ReadError.TheVariants.{Memory};

    ghost from_gives = { λ _ e. e ≡ Memory };

    fn from(_: AllocError) -> ReadError {
        ReadError::Memory
    }
}
