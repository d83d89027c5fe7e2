// What the printing program prints (document 01, "The printing program"): the card, the stream chunk by chunk, and the last lines.
#![tactic(auto)]

ghost use Rattle.std.specs.Prelude.{◌≡◌, true, ◌+◌, ◌*◌, ◌≤◌, ◌<◌, length, Err};
ghost use Rattle.refusal.specs.Number.{number};
ghost use Rattle.report_core.specs.Output.{front};
ghost use Rattle.stage.specs.Stage.{max_taken};
ghost use Rattle.notes.specs.Notes.{note_size, note_room};
ghost use Rattle.report_lines.specs.Sizes.{most_line};
ghost use Rattle.report_lines.specs.Lines.{room};
ghost use Rattle.report_core.specs.Progress.{most_comparisons, progress_fits, heard_while, room_in, fed};
ghost use Rattle.report_core.specs.Turn.{Turns};
ghost use Rattle.report_core.specs.Calls.{Begins, Feeds, last_lines, last_placed, last_written};

use card_record::read_signature;
use matcher::Matcher;
use notes::{NOTE, NOTE_ROOM};
use refusal::{Refusal, Verdict};
use report_lines::{MOST_LINE, ROOM, put_end, put_notes, put_refusal};
use stage::STAGES;

// The longest card record.
pub const CARD_BYTES: usize = 98;

// The most comparisons at one byte.
const MOST_COMPARISONS: u64 = STAGES as u64 + 1;

// The room that a buffer must have for the last lines: they are two at the most, each with the room of one byte's lines.
const LAST_ROOM: usize = 2 * ROOM;

// The numbers of the list that a scan is lent for its notes.
const NOTES: usize = 200 * NOTE;

// How far the program has come: the watch and all comparisons.
#[derive(Clone, Copy)]
pub struct Progress {
    pub matcher: Matcher,
    pub total: u64,
}

// The card was read: how far the program has come, and how many bytes the card took.
#[derive(Clone, Copy)]
pub struct Begun {
    pub progress: Progress,
    pub taken: usize,
}

// Bytes were taken: why the next one was refused, if it was; how far the program has come; how many bytes were taken; and how many bytes of
// lines stand at the buffer's front. (The verdict stands beside the rest: `Feeds` says of a refusal too which bytes were taken before it.)
#[derive(Clone, Copy)]
pub struct Fed {
    pub verdict: Verdict,
    pub progress: Progress,
    pub taken: usize,
    pub used: usize,
}

// The bytes on which the card is judged.
#[tactic(auto, using(std::proofs::lemmas::List::take_min))]
fn front(input: &[u8]) -> &[u8]
    ensures { result.now ≡ front input.now }
{
    &input[..CARD_BYTES.min(input.len())]
}

// Reads the card at the front of the input, and starts its watch. Refusals: those of reading a card.
pub fn begin(input: &[u8]) -> Result<Begun, Refusal>
    ensures { Begins input.now result }
{
    let card = read_signature(front(input))?;
    let matcher = Matcher::start(card.signature)?;
    Ok(Begun {
        progress: Progress { matcher, total: 0 },
        taken: card.taken,
    })
}

impl Progress {
    // Whether the watch is no misfit and the total is one that the bytes taken can have.
    pub fn fits(self) -> bool
        ensures { result ≡ progress_fits self }
    {
        self.matcher.fits() && self.total <= MOST_COMPARISONS * self.matcher.now.at
    }
}

// No byte is taken, and nothing is put.
fn unfed(progress: Progress, refusal: Refusal) -> Fed
    ensures { result ≡ record { verdict = Err refusal; progress = progress; taken = 0; used = 0 } }
{
    Fed {
        verdict: Err(refusal),
        progress,
        taken: 0,
        used: 0,
    }
}

// How many of so many numbers a scan is lent for its notes, where so many bytes of the buffer are free: behind the lines of its notes there is
// room for the lines of whatever byte it takes.
fn share(free: usize, most: usize) -> usize
    requires { (room ≤ free) × (note_room ≤ most) }
    ensures { (note_room ≤ result) × (result ≤ most) × (note_size * room + most_line * result ≤ note_size * free + most_line * note_room) }
{
    let lines = (free - ROOM) / MOST_LINE;
    let places = (most - NOTE_ROOM) / NOTE;
    NOTE_ROOM + NOTE * lines.min(places)
}

// Takes bytes behind those taken, and puts their lines behind those put: until none is left, one is refused, or the numbers lent have no room for
// the notes of one byte more. The buffer is never full, since the scan is lent its share alone. (The notes are a slice and no array of their number:
// tried, and the proof did not close, since what an array holds behind a call on a part of it is not known to fit.)
fn turn(fed: Fed, bytes: &[u8], out: &mut [u8], notes: &mut [u64]) -> Fed
    requires { (fed.taken < length bytes.now) × (fed.used + room ≤ length out.old) × (note_room ≤ length notes.old) × (fed.progress.matcher.now.at ≤ max_taken) × (fed.progress.total ≤ most_comparisons * fed.progress.matcher.now.at) }
    ensures { Turns fed.progress bytes.now fed.taken fed.used out.old result out.new }
{
    let Progress { matcher, total } = fed.progress;
    let cap = share(out.len() - fed.used, notes.len());
    let scan = scanner::scan(matcher, bytes, fed.taken, &mut notes[..cap]);
    let Some(used) = put_notes(out, fed.used, &notes[..scan.noted]) else {
        return unfed(fed.progress, Refusal::NoSpace);
    };
    Fed {
        verdict: scan.verdict,
        progress: Progress {
            matcher: scan.matcher,
            total: total + scan.comparisons,
        },
        taken: scan.next,
        used,
    }
}

// Turn after turn: until no byte is left, the buffer has no room for the lines of one byte more, or a byte is refused.
fn hear(progress: Progress, bytes: &[u8], out: &mut [u8]) -> Fed
    requires { progress_fits progress ≡ true }
    ensures { Feeds (heard_while (room_in (length out.old)) 0 progress bytes.now) out.old result out.new }
{
    let mut notes = [0u64; NOTES];
    let mut fed = Fed {
        verdict: Ok(()),
        progress,
        taken: 0,
        used: 0,
    };
    while fed.taken < bytes.len() {
        if out.len() - fed.used < ROOM {
            return fed;
        }
        fed = turn(fed, bytes, out, &mut notes);
        if fed.verdict.is_err() {
            return fed;
        }
    }
    fed
}

// Takes bytes, and puts their lines at the front of the buffer: until none is left, the buffer has no room for the lines of one byte more, or a
// byte is refused. Refusals: 10 misfit, 7 where the buffer has no room for the lines of one byte, 6 spent.
pub fn feed(progress: Progress, bytes: &[u8], out: &mut [u8]) -> Fed
    ensures { Feeds (fed (length out.old) progress bytes.now) out.old result out.new }
{
    if !progress.fits() {
        return unfed(progress, Refusal::Misfit);
    }
    if out.len() < ROOM {
        return unfed(progress, Refusal::NoSpace);
    }
    hear(progress, bytes, out)
}

// Puts the last lines at the front of the buffer: what was refused, if something was, and t with the total.
pub fn finish(verdict: Verdict, t: u64, total: u64, out: &mut [u8]) -> Option<usize>
    ensures value { result ≡ last_placed out.old (last_lines (number verdict) t total) }
    ensures out_after { out.new ≡ last_written out.old (last_lines (number verdict) t total) }
{
    if out.len() < LAST_ROOM {
        return None;
    }
    let Err(refusal) = verdict else {
        return put_end(out, 0, t, total);
    };
    let next = put_refusal(out, 0, refusal.number())?;
    put_end(out, next, t, total)
}
