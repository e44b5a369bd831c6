ghost use Rattle.std.specs.Prelude.{◌≡◌, ◌↔◌, IsTrue, Contains, if◌then◌else◌};
ghost use Rattle.io_edge.specs.Counts.{raised};
ghost use Rattle.io_edge.specs.Memory.{next_call};

/// Which calls are to fail, by their numbers, and how many calls and faults there were.
#[derive(Drop)]
pub(crate) struct Script {
    pub(crate) failing: Vec<usize>,
    // Wider than the numbers, so that it stops at a value that no list holds.
    pub(crate) calls: u128,
    pub(crate) faults: u64,
}

impl Script {
    pub(crate) fn new(failing: Vec<usize>) -> Script
        ensures failing { result.failing ≡ failing }
        ensures calls { result.calls ≡ 0 }
        ensures faults { result.faults ≡ 0 }
    {
        Script {
            failing,
            calls: 0,
            faults: 0,
        }
    }

    /// Counts a call, and says whether it is to fail.
    pub(crate) fn fails(&mut self) -> bool
        ensures fails { IsTrue result ↔ Contains self.old.failing.items self.old.calls }
        ensures failing { self.new.failing ≡ self.old.failing }
        ensures calls { self.new.calls ≡ next_call self.old.calls }
        ensures faults { self.new.faults
            ≡ (if result then raised self.old.faults else self.old.faults) }
    {
        let call = self.calls;
        let fails = self.failing.iter().any(|&number| number as u128 == call);
        self.calls = call.saturating_add(1);
        if fails {
            self.faults = self.faults.saturating_add(1);
        }
        fails
    }
}
