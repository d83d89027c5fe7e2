// A stream, taken through from a fresh watch on: uncut, cut before each byte, and, if it is short, cut before one byte alone, for each byte. A cut
// parks the watch, in a narrow record before every other byte, and resumes it. Each answer of each pass is held against the plain search, and the
// answers of all passes must be the same.
use crate::account::{Account, Case};
use crate::tally::{Tally, count};
use checkpoint_format::Format;
use checkpoint_restore::restore;
use checkpoint_save::save;
use driver_input::{behind, until};
use fingerprint::Key;
use matcher::{Matcher, Stroke};
use naive_search::{print_of, stages};
use signature::Signature;
use walk::Answer;

// More bytes than any record has, and what fills them before a watch is parked there for the first and for the second time.
const BUFFER: usize = 800;

const FIRST: u8 = 170;

const SECOND: u8 = 85;

// The longest stream that is cut before each byte alone.
const SHORT: usize = 64;

// Before which bytes a stream is cut; bytes are counted from 1. (Three ways, so no Option.)
#[derive(Clone, Copy, PartialEq, Eq)]
enum Cuts {
    None,
    Each,
    Before(usize),
}

// The length of the prefix behind one of `size` bytes, for a pattern of m bytes: twice as much, at most the whole; 0 behind the last
// (no Option: a card has 0 there, the fingerprint of no bytes).
fn next_size(size: usize, m: usize) -> usize {
    if m <= size {
        return 0;
    }
    size + size.min(m - size)
}

// Whether a card has the pattern's length, the key and the fingerprints of its prefixes, and 0 past them.
fn is_card_of(card: Signature, case: Case) -> bool {
    let m = case.pattern.len();
    let mut same = card.length as u64 == m as u64 && card.key.number() == case.key;
    let mut size: usize = 1;
    for print in card.prints {
        same = same && print.number() == print_of(until(case.pattern, size), case.key);
        size = next_size(size, m);
    }
    same
}

// How many bytes a parked watch of a pattern of m bytes takes (document 01, "Records"; document 02, A.5).
fn record_size(m: usize, format: Format) -> usize {
    let k = stages(m) as usize;
    match format {
        Format::Narrow => 26 + 28 * k,
        Format::Wide => 30 + 36 * k,
    }
}

// Whether two buffers begin with the same record, and hold behind it what they held before.
fn hold_one_record(first: &[u8], second: &[u8], size: usize) -> bool {
    until(first, size) == until(second, size)
        && behind(first, size).iter().all(|byte| *byte == FIRST)
        && behind(second, size).iter().all(|byte| *byte == SECOND)
}

// Whether a watch is parked in the same record as the first, all bytes behind it being left alone.
fn is_parked_so(w: Matcher, format: Format, size: usize, first: &[u8]) -> bool {
    let mut second = [SECOND; BUFFER];
    save(w, format, &mut second) == Ok(size) && hold_one_record(first, &second, size)
}

// A cut: what is resumed from a record is parked again in the same record. Where the watch cannot be resumed, it holds nothing.
fn cut(w: Matcher, format: Format, size: usize, tally: &mut Tally) -> Matcher {
    let mut first = [FIRST; BUFFER];
    tally.expect(save(w, format, &mut first) == Ok(size));
    let restored = restore(w.signature, &first);
    tally.expect(restored.map(|r| r.taken) == Ok(size));
    let resumed = restored.map_or(Matcher::none(), |r| r.matcher);
    tally.expect(is_parked_so(resumed, format, size, &first));
    resumed
}

// The watch before the last byte of the stream, cut there or not.
fn before(w: Matcher, cuts: Cuts, case: Case, tally: &mut Tally) -> Matcher {
    let t = case.stream.len();
    if cuts != Cuts::Each && cuts != Cuts::Before(t) {
        return w;
    }
    let format = if t % 2 == 0 {
        Format::Narrow
    } else {
        Format::Wide
    };
    count(&mut tally.cuts, 1);
    cut(w, format, record_size(case.pattern.len(), format), tally)
}

// The last byte of the stream so far: the cut before it, the stroke, to the core where the stream is uncut, else through the thin entry, and its
// answer. A watch that refuses the byte stays as it is.
fn turn(w: Matcher, cuts: Cuts, byte: u8, case: Case, account: &mut Account) -> Matcher {
    let own = before(w, cuts, case, &mut account.tally);
    let struck = if cuts == Cuts::None {
        own.stroke(byte)
    } else {
        in_place::stroke_local(own, byte)
    };
    account.tally.expect(struck.is_ok());
    let stroke = struck.unwrap_or(Stroke {
        answer: Answer::none(),
        matcher: own,
    });
    account.take(case, stroke.answer);
    stroke.matcher
}

// The whole stream from a fresh watch on.
fn walk(card: Signature, cuts: Cuts, case: Case, account: &mut Account) {
    let started = Matcher::start(card);
    account.tally.expect(started.is_ok());
    let mut w = started.unwrap_or(Matcher::none());
    for (t, byte) in case.stream.iter().enumerate() {
        let so_far = Case {
            stream: &case.stream[..t + 1],
            ..case
        };
        w = turn(w, cuts, *byte, so_far, account);
    }
}

// A pass. Its answers must be those of the uncut pass, which comes first.
fn pass(card: Signature, cuts: Cuts, case: Case, tally: Tally) -> Tally {
    let mut account = Account::new(tally);
    walk(card, cuts, case, &mut account);
    account.settle(case);
    let mut after = account.tally;
    if cuts == Cuts::None {
        after.uncut = after.digest;
    }
    let same = after.digest == after.uncut;
    after.expect(same);
    count(&mut after.passes, 1);
    after
}

// All passes of a case.
pub(crate) fn all(case: Case) -> Tally {
    let mut tally = Tally::default();
    let made = card_core::make(case.pattern, Key::new(case.key));
    let card = made.unwrap_or(Signature::none());
    tally.expect(made.is_ok() && is_card_of(card, case));
    tally = pass(card, Cuts::None, case, tally);
    tally = pass(card, Cuts::Each, case, tally);
    if case.stream.len() <= SHORT {
        for t in 1..=case.stream.len() {
            tally = pass(card, Cuts::Before(t), case, tally);
        }
    }
    tally
}
