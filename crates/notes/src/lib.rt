// What an answer has to report, noted in a lent list of numbers.
#![tactic(auto)]

ghost use Rattle.std.specs.Prelude.{◌≡◌, ◌+◌, ◌*◌, ◌≤◌, length};
ghost use mathlib.Core.List.{flat_map};
ghost use Rattle.lists.specs.Stored.{Stored};
ghost use Rattle.notes.specs.Notes.{note_size, ring_notes, set_note, note_room, room_for, notes_within};

use stage::{Progression, STAGES};
use walk::Answer;

// The numbers of a note: its kind, t, and three numbers more. Kind 0 is a ring, with its start; 1 is a set set aside, with first, step and many.
// (Numbers, no enum: a scan's caller lends a list of numbers, and its clause `notes` says them.)
pub const NOTE: usize = 5;

// The room that a list must have for the notes of one byte.
pub const NOTE_ROOM: usize = NOTE * (STAGES + 1);

// A note at a place of the list, and the place behind it. (The room is asked of the caller, here and below: the list is lent, and is written where
// it lies.)
fn put_note(notes: &mut [u64], at: usize, note: [u64; NOTE]) -> usize
    requires { at + note_size ≤ length notes.old }
    ensures { Stored notes.old at note note_size result notes.new }
{
    notes[at..at + NOTE].copy_from_slice(&note);
    at + NOTE
}

// The note of a ring, if a start rang.
fn put_ring(notes: &mut [u64], at: usize, t: u64, ring: Option<u64>) -> usize
    requires { at + note_size ≤ length notes.old }
    ensures { Stored notes.old at (ring_notes t ring) note_size result notes.new }
{
    if let Some(start) = ring {
        return put_note(notes, at, [0, t, start, 0, 0]);
    }
    at
}

// The notes of sets, one behind another.
fn put_sets(notes: &mut [u64], at: usize, t: u64, sets: &[Progression]) -> usize
    requires { at + note_size * length sets.now ≤ length notes.old }
    ensures { Stored notes.old at (flat_map (set_note t) sets.now) (note_size * length sets.now) result notes.new }
{
    let mut next = at;
    for set in sets {
        next = put_note(
            notes,
            next,
            [1, t, set.first, set.step as u64, set.many as u64],
        );
    }
    next
}

// Whether a list of so many numbers has room for the notes of one byte from a place on. (One line, as in report_lines for its own size: a
// function for both would be no plainer.)
fn has_room(size: usize, at: usize) -> bool
    ensures { result ≡ room_for size at }
{
    NOTE_ROOM <= size && at <= size - NOTE_ROOM
}

// The notes of the answer to byte t, at a place of the list, and the place behind them: nothing is noted where there is no room for the notes of one
// byte.
pub fn put_answer(notes: &mut [u64], at: usize, t: u64, answer: Answer) -> usize
    ensures { Stored notes.old at (notes_within (length notes.old) at t answer) note_room result notes.new }
{
    if !has_room(notes.len(), at) {
        return at;
    }
    let next = put_ring(notes, at, t, answer.ring);
    put_sets(notes, next, t, answer.set_asides())
}
