// Which calls of a device in memory are to fail.
ghost use Rattle.std.specs.Prelude.{◌≡◌, ◌↔◌, ◌⊎◌, false, IsErr, OnErr};
ghost use Rattle.disk_model.specs.Faults.{HasCause, one_more_fault};

use crate::Failed;

/// The calls that are to fail, numbered from 1, and how many were made and failed.
#[derive(Drop)]
pub struct Failing {
    calls: Vec<u64>,
    made: u64,
    pub faults: u64,
}

impl Failing {
    ghost use Rattle.disk_model.specs.Failing.{failing_calls, calls_made, next_number, IsListed};

    /// No call was made, and the calls with these numbers are to fail.
    pub fn new(calls: Vec<u64>) -> Failing
        ensures faults { result.faults ≡ 0 }
        ensures made { calls_made result ≡ 0 }
        ensures calls { failing_calls result ≡ calls.items }
    {
        Failing {
            calls,
            made: 0,
            faults: 0,
        }
    }

    /// One call: it fails where its number is listed.
    pub fn turn(&mut self) -> Result<(), Failed>
        ensures cause { HasCause self.old.faults self.new.faults result }
        ensures counted { OnErr result (self.new.faults ≡ one_more_fault self.old.faults) }
        ensures fails { IsErr result ↔ IsListed (failing_calls self.old) (calls_made self.old) }
        ensures made { calls_made self.new ≡ next_number (calls_made self.old) }
        ensures calls { failing_calls self.new ≡ failing_calls self.old }
    {
        self.turn_if(true)
    }

    /// One call: it fails where its number is listed, and also where it can't go on.
    pub fn turn_if(&mut self, can_go: bool) -> Result<(), Failed>
        ensures cause { HasCause self.old.faults self.new.faults result }
        ensures counted { OnErr result (self.new.faults ≡ one_more_fault self.old.faults) }
        ensures fails { IsErr result ↔ (IsListed (failing_calls self.old) (calls_made self.old) ⊎ (can_go ≡ false)) }
        ensures made { calls_made self.new ≡ next_number (calls_made self.old) }
        ensures calls { failing_calls self.new ≡ failing_calls self.old }
    {
        self.made = self.made.saturating_add(1);
        if self.calls.contains(&self.made) {
            self.faults = self.faults.saturating_add(1);
            return Err(Failed);
        }
        if !can_go {
            self.faults = self.faults.saturating_add(1);
            return Err(Failed);
        }
        Ok(())
    }
}
