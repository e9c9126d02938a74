//! Kinds of readiness, and what is noted of a place.
ghost use Rattle.std.specs.Prelude.{◌≡◌};
ghost use Rattle.cy_poll.specs.Kinds.{kinds_in, meets, with_kinds, without_kinds};

use cy_link::Ready;

/// The kinds of readiness among the two: that there is something to read, and that there is room to write.
#[derive(Clone, Copy, Debug, PartialEq, Eq)]
pub struct Kinds {
    pub read: bool,
    pub write: bool,
}

/// What is noted of a place: the kinds that it waits for, and the kinds of the events that are kept for it.
#[derive(Clone, Copy, Debug, PartialEq, Eq)]
pub struct Note {
    pub wanted: Kinds,
    pub kept: Kinds,
}

impl Note {
    /// It waits for nothing, and nothing is kept for it.
    pub const NONE: Note = Note {
        wanted: Kinds::NONE,
        kept: Kinds::NONE,
    };
}

impl Kinds {
    /// Neither kind.
    pub const NONE: Kinds = Kinds {
        read: false,
        write: false,
    };

    /// The kinds of an event.
    pub fn of(event: &Ready) -> Kinds
        ensures { result ≡ kinds_in event.now }
    {
        Kinds {
            read: event.read,
            write: event.write,
        }
    }

    /// Whether one of these is among the others.
    pub fn meets(self, others: Kinds) -> bool
        ensures { result ≡ meets self others }
    {
        self.read && others.read || self.write && others.write
    }

    /// These and the others.
    pub fn with(self, others: Kinds) -> Kinds
        ensures { result ≡ with_kinds self others }
    {
        Kinds {
            read: self.read || others.read,
            write: self.write || others.write,
        }
    }

    /// These, but for the others.
    pub fn without(self, others: Kinds) -> Kinds
        ensures { result ≡ without_kinds self others }
    {
        Kinds {
            read: self.read && !others.read,
            write: self.write && !others.write,
        }
    }
}
