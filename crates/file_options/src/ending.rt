use std::alloc::AllocError;
use value_core::Text;

/// Why a path and options say nothing.
#[derive(Debug, Drop)]
pub enum OptionEnd {
    /// The word of the first rule that is broken: `path`, or that of an option.
    Bad { word: Text },
    /// Want of memory, which no rule gives.
    Memory,
}

impl From<AllocError> for OptionEnd {
    ghost use Rattle.std.specs.Prelude.{◌≡◌};
    ghost use Rattle.file_options.specs.declared.ending.OptionEnd.TheVariants.{Memory};

    ghost from_gives = { λ _ e. e ≡ Memory };

    fn from(_: AllocError) -> OptionEnd {
        OptionEnd::Memory
    }
}
