// The chunks of a file: its header, and its track.
ghost use Rattle.std.specs.Prelude.{◌≡◌, ◌+◌, ◌≤◌, length};
ghost use Rattle.midi_file.specs.File.{number_at, has_letters, is_whole, is_header, track_of};

use refusal::Refusal;

// The first track chunk of a file: where its inside begins, and how many bytes that has.
#[derive(Clone, Copy, PartialEq, Eq, Debug)]
pub struct Track {
    pub start: usize,
    pub size: usize,
}

// A chunk begins with four letters and the length of its inside, in four bytes.
const LETTERS: usize = 4;

const LEADING: usize = 8;

// The header's inside: format and count of tracks, two bytes each, and the division, which is not looked at.
const LEAST_HEADER: usize = 6;

const FORMAT: usize = 8;

const TRACKS: usize = 10;

// The number in n bytes, the most significant first.
fn number_at(file: &[u8], at: usize, n: usize) -> usize
    requires { (at + n ≤ length file.now) × (n ≤ 4) }
    ensures { result ≡ number_at file.now at n }
{
    let mut number: usize = 0;
    for &byte in &file[at..at + n] {
        number = 256 * number + byte as usize;
    }
    number
}

// Whether the chunk at a place is all there, with its eight leading bytes.
fn is_whole(file: &[u8], at: usize) -> bool
    requires { at ≤ length file.now }
    ensures { result ≡ is_whole file.now at }
{
    LEADING <= file.len() - at && number_at(file, at + LETTERS, 4) <= file.len() - at - LEADING
}

// Whether the chunk at a place begins with these letters.
fn has_letters(file: &[u8], at: usize, letters: &[u8; LETTERS]) -> bool
    requires { at + 4 ≤ length file.now }
    ensures { result ≡ has_letters file.now at letters.now }
{
    &file[at..at + LETTERS] == letters.as_slice()
}

// Whether the file begins with a complete header, of format 0 and one track.
fn is_header(file: &[u8]) -> bool
    ensures { result ≡ is_header file.now }
{
    is_whole(file, 0)
        && has_letters(file, 0, b"MThd")
        && LEAST_HEADER <= number_at(file, LETTERS, 4)
        && number_at(file, FORMAT, 2) == 0
        && number_at(file, TRACKS, 2) == 1
}

// The file's track chunk: the first behind the header. Chunks of other types are passed over. There may be no header or no track, or a chunk
// that is cut short before the track.
pub(crate) fn track_of(file: &[u8]) -> Result<Track, Refusal>
    ensures { result ≡ track_of file.now }
{
    if !is_header(file) {
        return Err(Refusal::NoTrack);
    }
    let mut at = LEADING + number_at(file, LETTERS, 4);
    while at < file.len() {
        if !is_whole(file, at) {
            return Err(Refusal::Broken);
        }
        let start = at + LEADING;
        let size = number_at(file, at + LETTERS, 4);
        if has_letters(file, at, b"MTrk") {
            return Ok(Track { start, size });
        }
        at = start + size;
    }
    Err(Refusal::NoTrack)
}
