// The work of a thread, and what starts threads.
ghost use Rattle.std.specs.Prelude.{◌≡◌, ◌≤◌, ℕ};

/// The work of one thread, from its start to its end.
pub trait Task {
    fn run(self);
}

/// Something that starts threads.
pub trait Spawner<W: Task> {
    ghost use Rattle.cy_link.specs.Starts.{StartCounts};

    /// It can be asked to start work.
    ghost can_start: { Self → Type 0 };

    /// How often it could not start work.
    ghost faults: { Self → ℕ };

    /// Starts a thread that does this work, or hands the work back.
    fn start(&mut self, work: W) -> Option<W>
        requires { can_start self.old }
        ensures again { can_start self.new }
        ensures later { faults self.old ≤ faults self.new }
        ensures cause { StartCounts (faults self.old) (faults self.new) result };

    /// How often it could not start work, up to the greatest number.
    fn faults(&self) -> u64
        ensures { result ≡ faults self.now };
}
