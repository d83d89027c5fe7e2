// Reads passages from Standard MIDI Files of format 0 (document 02, A.2): the key of each Note On with a velocity above 0.
#![tactic(auto)]

ghost use Rattle.std.specs.Prelude.{◌≡◌, IfOk, cond, ◌&&◌, length};
ghost use Rattle.refusal.specs.Number.{number};
ghost use Rattle.midi_file.specs.Track.{is_bare};
ghost use Rattle.midi_file.specs.Strokes.{note_on};
ghost use Rattle.midi_file.specs.Calls.{
  track_strokes,
  track_refusal,
  filled,
  track_verdict,
  track_count,
  track_buffer,
  read_refusal,
  read_count,
  read_buffer,
};

use refusal::Refusal;

pub mod chunk; // chunk.rt: the chunks of a file
pub mod event; // event.rt: the events of a track
pub mod note; // note.rt: the rule at a Note On

use crate::chunk::{Track, track_of};
use crate::event::{Event, MOST_QUANTITY, event_at};
use crate::note::{Note, note_of};

// The lowest and the highest bell, as MIDI keys; both are inside.
#[derive(Clone, Copy, PartialEq, Eq, Debug)]
pub struct Bells {
    pub lowest: u8,
    pub highest: u8,
}

// What an end of track says: how many strokes stand before it, if its length is 0 and it is the last thing in the chunk.
fn closing(event: Event, last: bool, count: usize) -> Result<usize, Refusal>
    ensures verdict { number result ≡ cond (is_bare event && last) 0 16 }
    ensures count { IfOk result (λ n. n ≡ count) }
{
    if event.is_bare() && last {
        Ok(count)
    } else {
        Err(Refusal::Broken)
    }
}

// Reads a track up to its end or its first refusal: judges it, counts its strokes, and writes as many of them as the buffer has room for.
fn scan(track: &[u8], bells: Bells, out: &mut [u8]) -> Result<usize, Refusal>
    ensures verdict { number result ≡ track_refusal (note_on bells) track.now }
    ensures count { IfOk result (λ n. n ≡ length (track_strokes (note_on bells) track.now)) }
    ensures buffer { out.new ≡ filled (track_strokes (note_on bells) track.now) out.old }
{
    let mut at: usize = 0;
    let mut running: u8 = 0;
    let mut count: usize = 0;
    'events: loop {
        // The inner loop over a time's bytes, left with the refusal or the end, is document 01's ("What shape each place takes").
        let mut left = MOST_QUANTITY;
        loop {
            if left == 0 || track.len() <= at {
                break 'events Err(Refusal::Broken);
            }
            let byte = track[at];
            at += 1;
            left -= 1;
            if byte < 128 {
                break;
            }
        }
        let Some(placed) = event_at(track, running, at) else {
            break 'events Err(Refusal::Broken);
        };
        match note_of(bells, placed.event) {
            Note::Outside => break 'events Err(Refusal::OutsideBells),
            Note::Silent => {}
            Note::Struck(key) => {
                if count < out.len() {
                    out[count] = key;
                }
                count += 1;
            }
        }
        at = placed.end;
        if placed.event.is_end() {
            break 'events closing(placed.event, at == track.len(), count);
        }
        running = placed.event.running();
    }
}

// Reads a track: once to judge and count, and once to write.
fn read_track(track: &[u8], bells: Bells, out: &mut [u8]) -> Result<usize, Refusal>
    ensures verdict { number result ≡ track_verdict (note_on bells) track.now out.old }
    ensures count { IfOk result (λ n. n ≡ track_count (note_on bells) track.now out.old) }
    ensures buffer { out.new ≡ track_buffer (note_on bells) track.now out.old }
{
    let count = scan(track, bells, &mut out[..0])?;
    if out.len() < count {
        return Err(Refusal::NoSpace);
    }
    scan(track, bells, out)
}

// Reads a file: the keys of its notes that sound go to the front of the buffer, and how many they are is handed back. Refusals: 15 no header
// or no track, 16 broken, 17 a key struck outside the bells, 7 no space.
pub fn read(file: &[u8], bells: Bells, out: &mut [u8]) -> Result<usize, Refusal>
    ensures verdict { number result ≡ read_refusal (note_on bells) file.now out.old }
    ensures count { IfOk result (λ n. n ≡ read_count (note_on bells) file.now out.old) }
    ensures buffer { out.new ≡ read_buffer (note_on bells) file.now out.old }
{
    let Track { start, size } = track_of(file)?;
    read_track(&file[start..start + size], bells, out)
}
