// Which expectations a row passes.
ghost use Rattle.std.specs.Prelude.{◌≡◌, false, replicate, IfOk};

use std::alloc::{AllocError, Global};
use std::marker::Model;

/// One truth value an expectation, which contracts see as their list: whether a row passes it.
#[derive(Debug, Drop)]
pub struct Marks {
    pub(crate) passed: Vec<bool>,
}

impl Model for Marks {
    ghost use Rattle.std.specs.Prelude.{List, Bool};

    ghost Value = { List Bool };

    ghost view = { λ marks. marks.passed.items };
}

impl Marks {
    /// So many times false. Fails for want of memory alone, and takes none where there is no
    /// expectation.
    pub fn new(alloc: Global, count: usize) -> Result<Marks, AllocError>
        ensures { IfOk result (λ marks. marks ≡ replicate count false) }
    {
        let passed = vec![in alloc; false; count]?;
        Ok(Marks { passed })
    }

    /// The truth values, in the order of the expectations.
    pub fn as_slice(&self) -> &[bool]
        ensures { result.now ≡ self.now }
    {
        self.passed.as_slice()
    }
}
