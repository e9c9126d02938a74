//! The table of interests.
ghost use Rattle.std.specs.Prelude.{◌≡◌, ◌≤◌, ◌<◌, ◌++◌, ◌&&◌, false, true, not, if◌then◌else◌, All, IfOk, length, drop, replicate, slice_index_or, slice_set, take};
ghost use Rattle.cy_poll.specs.Kinds.{kinds_in, meets};
ghost use Rattle.cy_poll.specs.Notes.{after_want, no_note, note_of};
ghost use Rattle.cy_poll.specs.Runs.{IsTurn, forgotten, sorted, wanted};
ghost use Rattle.cy_poll.specs.Sorts.{AreSorted, given, is_wanted};
ghost use Rattle.cy_poll.specs.Noting.{AreCleared, AreMarks, AreNoted, HaveEnded, idle, keeping};

use crate::kinds::{Kinds, Note};
use cy_link::Ready;
use std::alloc::{AllocError, Global};
use std::marker::Model;

/// Memory ran out.
pub type NoMemory = AllocError;

/// For each place, what it waits for and which events are kept for it. Contracts see a list with a note for each place.
#[derive(Debug, Drop)]
pub struct Interests {
    notes: Vec<Note>,
    // Which places were given so far in the call of `sort_events` that is under way. Between calls none is marked.
    marks: Vec<bool>,
}

impl Model for Interests {
    ghost use Rattle.std.specs.Prelude.{◌≡◌, List, false, length, replicate};
    ghost use Rattle.cy_poll.specs.declared.kinds.Note.{Note};

    ghost Value = { List Note };

    ghost view = { λ i. i.notes.items };

    ghost invariant = { λ i. i.marks.items ≡ replicate (length i.notes.items) false };
}

impl Interests {
    /// A table for places with the numbers below `places`, of which none waits and for which nothing is kept. This alone
    /// takes memory.
    pub fn new(alloc: Global, places: u32) -> Result<Interests, NoMemory>
        ensures { IfOk result (λ interests. interests ≡ replicate places no_note) }
    {
        let notes = vec![in alloc; Note::NONE; places as usize]?;
        let marks = vec![in alloc; false; places as usize]?;
        Ok(Interests { notes, marks })
    }

    /// How many places there are.
    #[cfg(test)]
    pub(crate) fn places(&self) -> usize
        ensures { result ≡ length self.now }
    {
        self.notes.len()
    }

    /// The place waits for these kinds from now on. Or, and then the answer is true, events of one of them are kept for
    /// it: those of these kinds are taken, and it waits for nothing.
    pub fn want(&mut self, place: u32, read: bool, write: bool) -> bool
        requires { place < length self.old }
        ensures kept { result ≡ meets (note_of self.old place).kept (record { read = read; write = write }) }
        ensures notes { self.new ≡ slice_set self.old place (after_want (note_of self.old place) (record { read = read; write = write })) }
        ensures places { length self.new ≡ length self.old }
        ensures turn { IsTurn self.old (wanted place (record { read = read; write = write }) result) self.new }
    {
        let kinds = Kinds { read, write };
        let note = self.notes[place as usize];
        let is_kept = note.kept.meets(kinds);
        self.notes[place as usize] = if is_kept {
            Note {
                wanted: Kinds::NONE,
                kept: note.kept.without(kinds),
            }
        } else {
            Note {
                wanted: kinds,
                kept: note.kept,
            }
        };
        is_kept
    }

    /// The place waits for nothing, and what was kept for it is dropped.
    pub fn forget(&mut self, place: u32)
        requires { place < length self.old }
        ensures notes { self.new ≡ slice_set self.old place no_note }
        ensures places { length self.new ≡ length self.old }
        ensures turn { IsTurn self.old (forgotten place) self.new }
    {
        self.notes[place as usize] = Note::NONE;
    }

    /// Writes the places that wait for one of these events to the front of `into`, each once, in the order of the first
    /// such events, and answers how many they are. Then they wait for nothing. Events of other kinds are kept; those of
    /// places that aren't in the table are dropped.
    pub fn sort_events(&mut self, events: &[Ready], into: &mut [u32]) -> usize
        requires { length into.old ≡ length events.now }
        ensures count { result ≡ length (given self.old events.now) }
        ensures fits { result ≤ length events.now }
        ensures given { into.new ≡ given self.old events.now ++ drop result into.old }
        ensures below { All (λ p. p < length self.old) (take result into.new) }
        ensures notes { AreSorted self.old events.now self.new }
        ensures places { length self.new ≡ length self.old }
        ensures turn { IsTurn self.old (sorted events.now (take result into.new)) self.new }
    {
        let notes = self.notes.as_mut_slice();
        let marks = self.marks.as_mut_slice();
        let count = note_events(notes, marks, events, into);
        end_waits(notes, marks, &into[..count]);
        count
    }
}

/// Notes an event, and answers whether its place is given by it: the first of the wanted events of that place.
fn note_event(notes: &mut [Note], marks: &mut [bool], event: &Ready) -> bool
    requires { length marks.old ≡ length notes.old }
    ensures given { result ≡ (is_wanted notes.old event.now && not (slice_index_or marks.old event.now.place false)) }
    ensures notes { notes.new ≡ slice_set notes.old event.now.place (keeping (note_of notes.old event.now.place) (kinds_in event.now)) }
    ensures marks { marks.new ≡ (if result then slice_set marks.old event.now.place true else marks.old) }
{
    let place = event.place as usize;
    if place >= notes.len() {
        return false;
    }
    let note = notes[place];
    let kinds = Kinds::of(event);
    notes[place].kept = note.kept.with(kinds.without(note.wanted));
    if marks[place] || !note.wanted.meets(kinds) {
        return false;
    }
    marks[place] = true;
    true
}

/// Notes all events, and writes the places that are given to the front of `into`. They still wait.
fn note_events(notes: &mut [Note], marks: &mut [bool], events: &[Ready], into: &mut [u32]) -> usize
    requires marks { marks.old ≡ replicate (length notes.old) false }
    requires room { length into.old ≡ length events.now }
    ensures count { result ≡ length (given notes.old events.now) }
    ensures fits { result ≤ length events.now }
    ensures given { into.new ≡ given notes.old events.now ++ drop result into.old }
    ensures noted { AreNoted notes.old events.now notes.new }
    ensures marks { AreMarks (length notes.old) (given notes.old events.now) marks.new }
{
    let mut count = 0;
    for event in events {
        if note_event(notes, marks, event) {
            into[count] = event.place;
            count += 1;
        }
    }
    count
}

/// The place waits for nothing from now on, and isn't marked.
fn end_wait(notes: &mut [Note], marks: &mut [bool], place: u32)
    requires { length marks.old ≡ length notes.old }
    ensures notes { notes.new ≡ slice_set notes.old place (idle (note_of notes.old place)) }
    ensures marks { marks.new ≡ slice_set marks.old place false }
{
    let place = place as usize;
    if place < notes.len() {
        notes[place].wanted = Kinds::NONE;
        marks[place] = false;
    }
}

/// These places wait for nothing from now on, and aren't marked.
fn end_waits(notes: &mut [Note], marks: &mut [bool], places: &[u32])
    requires { length marks.old ≡ length notes.old }
    ensures notes { HaveEnded notes.old places.now notes.new }
    ensures marks { AreCleared marks.old places.now marks.new }
{
    for place in places {
        end_wait(notes, marks, *place);
    }
}
