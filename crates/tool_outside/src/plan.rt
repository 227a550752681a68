// Which calls of an object in memory fail.
ghost use Rattle.std.specs.Prelude.{◌≡◌, ◌≤◌, cond};
ghost use Rattle.tool_outside.specs.Memory.{is_listed, next_count};

use tla_values::List;

#[derive(Drop)]
pub(crate) struct Plan {
    fails: List<u64>,
    call: u64,
    faults: u64,
}

impl Plan {
    pub(crate) fn new(fails: List<u64>) -> Self
        ensures fails { result.fails ≡ fails }
        ensures call { result.call ≡ 0 }
        ensures faults { result.faults ≡ 0 }
    {
        Plan {
            fails,
            call: 0,
            faults: 0,
        }
    }

    // Whether this call fails. It counts the call, and the fault.
    pub(crate) fn call_fails(&mut self) -> bool
        ensures answer { result ≡ is_listed self.old.fails self.old.call }
        ensures fails { self.new.fails ≡ self.old.fails }
        ensures call { self.new.call ≡ next_count self.old.call }
        ensures faults { self.new.faults ≡ cond result (next_count self.old.faults) self.old.faults }
        ensures never_falls { self.old.faults ≤ self.new.faults }
    {
        let fails = self.fails.as_slice().contains(&self.call);
        self.call = self.call.saturating_add(1);
        if fails {
            self.faults = self.faults.saturating_add(1);
        }
        fails
    }
}
