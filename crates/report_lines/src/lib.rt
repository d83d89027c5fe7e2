// The lines of the printing program (document 01, "The printing program"), put into a lent buffer.
#![tactic(auto)]

ghost use Rattle.std.specs.Prelude.{◌≡◌, ◌+◌, ◌*◌, ◌≤◌, length, leb};
ghost use Rattle.lists.specs.Stored.{Stored};
ghost use Rattle.notes.specs.Notes.{note_size};
ghost use Rattle.report_lines.specs.Lines.{
  item,
  line,
  line_x,
  line_e,
  note_lines,
  room,
  placed,
  written,
  notes_placed,
  notes_written,
};
ghost use Rattle.report_lines.specs.Sizes.{most_item, most_numbers, most_line};

use notes::NOTE;

// The room that a buffer must have from the place on, whatever is to be put there: the lines of one byte are never longer.
pub const ROOM: usize = 2048;

// The longest line.
pub const MOST_LINE: usize = 86;

// A space and a number. (The room is asked of the caller, here and below: the buffer is lent, and is written where it lies.)
fn put_item(buf: &mut [u8], at: usize, n: u64) -> usize
    requires { at + most_item ≤ length buf.old }
    ensures { Stored buf.old at (item n) most_item result buf.new }
{
    buf[at] = b' ';
    decimal::put(buf, at + 1, n)
}

// A line: a letter and up to four numbers.
fn put_line(buf: &mut [u8], at: usize, letter: u8, numbers: &[u64]) -> usize
    requires { (at + most_line ≤ length buf.old) × (length numbers.now ≤ most_numbers) }
    ensures { Stored buf.old at (line letter numbers.now) most_line result buf.new }
{
    buf[at] = letter;
    let mut next = at + 1;
    for &n in numbers {
        next = put_item(buf, next, n);
    }
    buf[next] = b'\n';
    next + 1
}

// The line of a note.
fn put_note(buf: &mut [u8], at: usize, note: &[u64]) -> usize
    requires room { at + most_line ≤ length buf.old }
    requires whole { length note.now ≡ note_size }
    ensures { Stored buf.old at (note_lines note.now) most_line result buf.new }
{
    if note[0] == 0 {
        put_line(buf, at, b'R', &note[1..3])
    } else {
        put_line(buf, at, b'A', &note[1..])
    }
}

// Whether a buffer of so many bytes has the room from a place on. (One line, as in notes for its own size.)
fn has_room(size: usize, at: usize) -> bool
    ensures { result ≡ leb (at + room) size }
{
    ROOM <= size && at <= size - ROOM
}

// Whether it has the room of so many of the longest lines.
fn has_lines(size: usize, at: usize, lines: usize) -> bool
    ensures { result ≡ leb (at + most_line * lines) size }
{
    at <= size && lines <= (size - at) / MOST_LINE
}

// The lines of notes, at a place of the buffer: where the next line goes, if there is room for them; else the buffer is as it was. Numbers behind
// the last whole note count for nothing.
pub fn put_notes(buf: &mut [u8], at: usize, notes: &[u64]) -> Option<usize>
    ensures value { result ≡ notes_placed buf.old at notes.now }
    ensures buf_after { buf.new ≡ notes_written buf.old at notes.now }
{
    if !has_lines(buf.len(), at, notes.len() / NOTE) {
        return None;
    }
    let mut next = at;
    for note in notes.chunks_exact(NOTE) {
        next = put_note(buf, next, note);
    }
    Some(next)
}

// One line, at a place of the buffer: where the next one goes, if there is room; else the buffer is as it was.
fn put_alone(buf: &mut [u8], at: usize, letter: u8, numbers: &[u64]) -> Option<usize>
    requires { length numbers.now ≤ most_numbers }
    ensures value { result ≡ placed buf.old at (line letter numbers.now) }
    ensures buf_after { buf.new ≡ written buf.old at (line letter numbers.now) }
{
    if has_room(buf.len(), at) {
        Some(put_line(buf, at, letter, numbers))
    } else {
        None
    }
}

// The line of a refusal, at a place of the buffer.
pub fn put_refusal(buf: &mut [u8], at: usize, number: u32) -> Option<usize>
    ensures value { result ≡ placed buf.old at (line_x number) }
    ensures buf_after { buf.new ≡ written buf.old at (line_x number) }
{
    put_alone(buf, at, b'X', &[number as u64])
}

// The last line, at a place of the buffer.
pub fn put_end(buf: &mut [u8], at: usize, t: u64, total: u64) -> Option<usize>
    ensures value { result ≡ placed buf.old at (line_e t total) }
    ensures buf_after { buf.new ≡ written buf.old at (line_e t total) }
{
    put_alone(buf, at, b'E', &[t, total])
}
