// Several bytes of the stream in one call, with what they have to report noted: bytes that can change no stage are passed over together.
#![tactic(auto)]

ghost use Rattle.std.specs.Prelude.{◌≡◌, true, ◌++◌, ◌+◌, ◌-◌, ◌≤◌, length, drop};
ghost use Rattle.ladder.specs.Prefix.{levels};
ghost use Rattle.refusal.specs.Number.{number};
ghost use Rattle.signature.specs.Signature.{max_length};
ghost use Rattle.stage.specs.Stage.{max_taken};
ghost use Rattle.walk.specs.Quiet.{Unripe};
ghost use Rattle.matcher.specs.Matcher.{matcher_fits};
ghost use Rattle.notes.specs.Notes.{note_room};
ghost use Rattle.scanner.specs.Scan.{scanned, scan_of};
ghost use Rattle.scanner.specs.Skip.{skipped, end_of, Ends};

use fingerprint::{Fingerprint, Key};
use matcher::Matcher;
use notes::NOTE_ROOM;
use powers::Powers;
use refusal::{Refusal, Verdict};
use stage::{MAX_TAKEN, Mark, STAGES, Stage};
use walk::{Round, Walk};

// Where a run of strokes ended: the watch; how many numbers were noted; all comparisons; the place behind the last byte taken; and why the next
// byte was refused, if it was (beside the rest: `noted`, `comparisons` and `next` say of a refused
// byte too what was taken before it).
#[derive(Clone, Copy)]
pub struct Ended {
    pub matcher: Matcher,
    pub noted: usize,
    pub comparisons: u64,
    pub next: usize,
    pub verdict: Verdict,
}

// A t up to which no start becomes ripe. (As in matcher's `judge`, which finds it beside what it judges, in one pass.)
fn quiet_until(stages: &[Stage; STAGES], m: u32) -> u64
    requires { (1 ≤ m) × (m ≤ max_length) }
    ensures { (result ≤ max_taken) × Unripe (levels m) m result stages.now }
{
    let mut until = MAX_TAKEN;
    for i in 0..signature::levels(m) {
        until = stages[i as usize].quiet_until(m, i + 1, until);
    }
    until
}

// t and F_t behind the bytes that are passed over: until t is `until`, a byte is P_0, or none is left.
fn skip(key: Key, first: Fingerprint, until: u64, start: Mark, input: &[u8]) -> Mark
    requires { (until ≤ max_taken) × (start.at ≤ max_taken) }
    ensures { result ≡ skipped key first (until - start.at) start input.now }
{
    let most = until.saturating_sub(start.at) as usize;
    let mut mark = start;
    for byte in &input[..input.len().min(most)] {
        if first == Fingerprint::of_byte(*byte) {
            return mark;
        }
        mark = mark.next(key, *byte);
    }
    mark
}

// A run that has taken no byte.
fn untaken(matcher: Matcher, from: usize, verdict: Verdict) -> Ended
    ensures { result ≡ end_of matcher 0 0 from verdict }
{
    Ended {
        matcher,
        noted: 0,
        comparisons: 0,
        next: from,
        verdict,
    }
}

// The run of a watch that is no misfit.
fn run(matcher: Matcher, input: &[u8], from: usize, notes: &mut [u64]) -> Ended
    requires { (matcher_fits matcher ≡ true) × (from ≤ length input.now) × (note_room ≤ length notes.old) }
    ensures { Ends from (scanned (length notes.old) 0 matcher (drop from input.now)) notes.old result notes.new }
{
    let signature = matcher.signature;
    let first = signature.prints[0];
    let shifts = Powers::of(signature.key, signature.length).shifts(signature.length);
    let last = notes.len() - NOTE_ROOM;
    let mut ended = untaken(matcher, from, Ok(()));
    // No `for`: each turn takes as many bytes as are passed over, and one.
    while ended.next < input.len() {
        let now = ended.matcher.now;
        let until = quiet_until(&ended.matcher.stages, signature.length);
        let start = skip(signature.key, first, until, now, &input[ended.next..]);
        let skipped = start.at.saturating_sub(now.at);
        ended.next += skipped as usize;
        ended.comparisons += skipped;
        ended.matcher.now = start;
        if ended.next < input.len() {
            if MAX_TAKEN <= start.at {
                return Ended {
                    verdict: Err(Refusal::Spent),
                    ..ended
                };
            }
            let now = start.next(signature.key, input[ended.next]);
            let round = Round { signature, now };
            let Walk { stages, answer } = walk::climb(round, shifts, start, ended.matcher.stages);
            ended.matcher.now = now;
            ended.matcher.stages = stages;
            ended.next += 1;
            ended.comparisons += answer.comparisons as u64;
            if !answer.is_silent() {
                ended.noted = notes::put_answer(notes, ended.noted, now.at, answer);
                if last < ended.noted {
                    return ended;
                }
            }
        }
    }
    ended
}

// Takes the bytes from a place of the input on, and notes what they have to report at the front of the list: until none is left, the list has
// no room for the notes of one byte more, or one is refused. Refusals: 10 misfit, 7 where the list has no room for the notes of one byte,
// 6 spent. Bytes at which no start is ripe and which are not P_0 cost little more than the running fingerprint.
pub fn scan(matcher: Matcher, input: &[u8], from: usize, notes: &mut [u64]) -> Ended
    ensures matcher { result.matcher ≡ (scan_of (length notes.old) matcher (drop from input.now)).matcher }
    ensures noted { result.noted ≡ length (scan_of (length notes.old) matcher (drop from input.now)).notes }
    ensures notes { notes.new ≡ (scan_of (length notes.old) matcher (drop from input.now)).notes ++ drop (length (scan_of (length notes.old) matcher (drop from input.now)).notes) notes.old }
    ensures comparisons { result.comparisons ≡ (scan_of (length notes.old) matcher (drop from input.now)).comparisons }
    ensures next { result.next ≡ from + (scan_of (length notes.old) matcher (drop from input.now)).taken }
    ensures verdict { number result.verdict ≡ (scan_of (length notes.old) matcher (drop from input.now)).refusal }
{
    if !matcher.fits() {
        return untaken(matcher, from, Err(Refusal::Misfit));
    }
    if notes.len() < NOTE_ROOM {
        return untaken(matcher, from, Err(Refusal::NoSpace));
    }
    if input.len() <= from {
        return untaken(matcher, from, Ok(()));
    }
    run(matcher, input, from, notes)
}
