//! Which of the calls on an object in memory are to fail.
ghost use Rattle.std.specs.Prelude.{◌≡◌, ◌≤◌, true, false, IfErr, OnOk, OnErr};
ghost use Rattle.sccp_io.specs.Calls.{is_listed, CountsCall};
ghost use Rattle.sccp_io.specs.Faults.{Rose, HasCause};

use crate::IoFault;
use crate::count::raised;

/// The numbers of the calls that are to fail, the number of the next call, from 0, and how many calls failed.
#[derive(Drop)]
pub struct Schedule {
    failing: Vec<u64>,
    calls: u64,
    faults: u64,
}

impl Schedule {
    /// No call was made, and none failed. `failing` lists the numbers of the calls that are to fail.
    pub fn new(failing: Vec<u64>) -> Self
        ensures list { result.failing.items ≡ failing.items }
        ensures no_call { result.calls ≡ 0 }
        ensures no_fault { result.faults ≡ 0 }
    {
        Schedule {
            failing,
            calls: 0,
            faults: 0,
        }
    }

    /// Counts a call, and fails it if it is listed.
    pub fn next(&mut self) -> Result<(), IoFault>
        ensures call { CountsCall self.old.failing.items self.new.failing.items self.old.calls self.new.calls }
        ensures unlisted { OnOk result (is_listed self.old.failing.items self.old.calls ≡ false) }
        ensures same { OnOk result (self.new.faults ≡ self.old.faults) }
        ensures listed { OnErr result (is_listed self.old.failing.items self.old.calls ≡ true) }
        ensures failed { IfErr result (λ fault. fault ≡ IoFault.Failed) }
        ensures cause { HasCause self.old.faults self.new.faults result }
    {
        let call = self.calls;
        self.calls = raised(call);
        if self.failing.contains(&call) {
            Err(self.fail())
        } else {
            Ok(())
        }
    }

    /// Counts a fault, and gives it.
    pub fn fail(&mut self) -> IoFault
        ensures fault { result ≡ IoFault.Failed }
        ensures later { self.old.faults ≤ self.new.faults }
        ensures rose { Rose self.old.faults self.new.faults }
        ensures list { self.new.failing ≡ self.old.failing }
        ensures calls { self.new.calls ≡ self.old.calls }
    {
        self.faults = raised(self.faults);
        IoFault::Failed
    }
}
