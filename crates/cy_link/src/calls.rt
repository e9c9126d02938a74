// The calls of an object in memory, and which of them fail.
ghost use Rattle.std.specs.Prelude.{◌≡◌, ◌≤◌, ◌+◌, ◌-◌, ◌^◌, min};

/// The numbers of the calls that are to fail, the calls made so far, and the faults among them.
#[derive(Drop)]
pub struct Calls {
    failing: Vec<u64>,
    made: u64,
    faults: u64,
}

impl Calls {
    ghost use Rattle.cy_link.specs.Memory.{is_listed};

    /// No call was made yet. The first one is number 0.
    pub fn new(failing: Vec<u64>) -> Self
        ensures failing { result.failing.items ≡ failing.items }
        ensures made { result.made ≡ 0 }
        ensures faults { result.faults ≡ 0 }
    {
        Calls {
            failing,
            made: 0,
            faults: 0,
        }
    }

    /// Counts a call, and says whether it is one of those that fail.
    pub fn next_fails(&mut self) -> bool
        ensures listed { result ≡ is_listed self.old.failing.items self.old.made }
        ensures failing { self.new.failing.items ≡ self.old.failing.items }
        ensures made { self.new.made ≡ min (self.old.made + 1) (2 ^ 64 - 1) }
        ensures faults { self.new.faults ≡ self.old.faults }
    {
        let fails = self.failing.contains(&self.made);
        self.made = self.made.saturating_add(1);
        fails
    }

    /// Counts a fault.
    pub fn add_fault(&mut self)
        ensures failing { self.new.failing.items ≡ self.old.failing.items }
        ensures made { self.new.made ≡ self.old.made }
        ensures faults { self.new.faults ≡ min (self.old.faults + 1) (2 ^ 64 - 1) }
        ensures later { self.old.faults ≤ self.new.faults }
    {
        self.faults = self.faults.saturating_add(1);
    }

    pub fn faults(&self) -> u64
        ensures { result ≡ self.now.faults }
    {
        self.faults
    }
}
