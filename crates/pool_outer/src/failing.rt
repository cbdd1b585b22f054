ghost use Rattle.std.specs.Prelude.{◌≡◌, ◌↔◌, IsTrue};
ghost use Rattle.pool_outer.specs.MemoryCalls.{NextFails, one_more};

/// Calls of which some fail, by their numbers from 0.
#[derive(Drop)]
pub struct FailingCalls {
    next: u64,
    fails: Vec<u64>,
}

impl FailingCalls {
    pub fn new(fails: Vec<u64>) -> FailingCalls
        ensures { result ≡ record { next = 0; fails = fails } }
    {
        FailingCalls { next: 0, fails }
    }

    /// Counts a call, and says whether it fails.
    pub fn fails_now(&mut self) -> bool
        ensures fails { IsTrue result ↔ NextFails self.old }
        ensures next { self.new ≡ one_more self.old }
    {
        let call = self.next;
        self.next = call.saturating_add(1);
        self.fails.contains(&call)
    }
}
