// Counting what failed.
ghost use Rattle.std.specs.Prelude.{◌≡◌, IfOk, Ok};
ghost use Rattle.disk_model.specs.Faults.{HasCause};

use disk_model::Failed;
use std::io;

/// How often a device has failed, up to the last value of a `u64`.
#[derive(Drop)]
pub(crate) struct Faults {
    pub count: u64,
}

impl Faults {
    /// No failure yet.
    pub fn new() -> Faults
        ensures { result.count ≡ 0 }
    {
        Faults { count: 0 }
    }

    /// What the system answered: an error is counted.
    pub fn note<T>(&mut self, answer: io::Result<T>) -> Result<T, Failed>
        ensures ok { IfOk result (λ value. answer ≡ Ok value) }
        ensures cause { HasCause self.old.count self.new.count result }
    {
        match answer {
            Ok(value) => Ok(value),
            Err(_) => {
                self.count = self.count.saturating_add(1);
                Err(Failed)
            }
        }
    }
}
