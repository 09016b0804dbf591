// What each piece passes before its first row.
ghost use Rattle.std.specs.Prelude.{ℕ};

/// What each piece of the rows passes before its first row, with its number from 0. A product gives
/// `NoGate`; a test gives one that sees which pieces are in work at once.
pub trait Gate {
    /// That a piece of this number has passed.
    ghost passed: { Self → ℕ → Type 0 };

    /// Lets a piece of this number pass.
    fn enter(&self, piece: u32)
        ensures { passed self.now piece };
}

/// A gate that does nothing.
#[derive(Drop)]
pub struct NoGate;

impl Gate for NoGate {
    ghost passed = { λ gate piece. Unit {0} };

    fn enter(&self, piece: u32) {}
}
