use std::alloc::AllocError;

/// Why a pipeline's text is refused. Places are byte offsets from 0.
#[derive(Clone, Copy, Debug, PartialEq, Eq)]
pub enum SqlRefusal {
    /// The text has more bytes than `MAX_TEXT`.
    TextTooLong,
    /// The text is not UTF-8 from this byte on, or no token begins at it.
    BadToken { at: u32 },
    /// The number that begins at this byte is too large.
    LiteralTooLarge { at: u32 },
    /// With the token at this byte the text begins no pipeline, or it ends here too early.
    Unexpected { at: u32 },
    /// The token at this byte is one too many for an expression.
    ExprTooLong { at: u32 },
    /// There was no memory.
    Memory,
}

impl From<AllocError> for SqlRefusal {
    ghost use Rattle.std.specs.Prelude.{◌≡◌};
    ghost use Rattle.sql_tokens.specs.declared.error.SqlRefusal.TheVariants.{Memory};

    ghost from_gives = { λ _ e. e ≡ Memory };

    fn from(_: AllocError) -> SqlRefusal {
        SqlRefusal::Memory
    }
}
