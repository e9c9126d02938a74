// What a link in memory does at its reads and writes, an item a call.
ghost use Rattle.std.specs.Prelude.{◌≡◌, ◌==◌, length, not};

/// What a read of a link in memory finds.
#[derive(Debug, Drop)]
pub enum Input {
    /// These bytes. A read gives them, or as many of the first of them as fit.
    Piece(Vec<u8>),
    /// Nothing yet.
    Pause,
}

impl Input {
    ghost use Rattle.cy_link.specs.Items.{is_filled};

    /// It is no piece without bytes.
    pub fn is_filled(&self) -> bool
        ensures { result ≡ is_filled self.now }
    {
        match self {
            Input::Piece(bytes) => 0 < bytes.len(),
            Input::Pause => true,
        }
    }
}

/// What a write to a link in memory finds.
#[derive(Clone, Copy, Debug, PartialEq, Eq)]
pub enum Output {
    /// Room for so many bytes, and for one at least.
    Room(usize),
    /// No room yet.
    Pause,
}
