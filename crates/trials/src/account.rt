// What becomes of each start of a stream, held against demand 3 by the plain search: a ring, a set that was set aside, and at the end every
// occurrence. The stream is always the bytes so far; the answer is that to the last of them.
use crate::tally::{Tally, count};
use driver_input::{behind, until};
use naive_search::{collides, occurs, print_of, stages};
use stage::Progression;
use walk::Answer;

// The most starts of a stream: as many as the longest stream has.
const STARTS: usize = 9000;

// A pattern, a stream and a key.
#[derive(Clone, Copy)]
pub(crate) struct Case<'a> {
    pub pattern: &'a [u8],
    pub stream: &'a [u8],
    pub key: u32,
}

// What was reported of a start.
#[derive(Clone, Copy, PartialEq, Eq)]
enum Fate {
    Unheard,
    Rung,
    SetAside,
}

// What was reported of each start in a pass, and the counters of the case.
#[derive(Drop)]
pub(crate) struct Account {
    fates: [Fate; STARTS],
    pub tally: Tally,
}

impl Account {
    // Before a pass.
    pub(crate) fn new(tally: Tally) -> Account {
        Account {
            fates: [Fate::Unheard; STARTS],
            tally: Tally { digest: 0, ..tally },
        }
    }

    fn fate(&self, start: usize) -> Fate {
        self.fates.get(start).copied().unwrap_or(Fate::Unheard)
    }

    // A start is reported: it must be new.
    fn report(&mut self, start: usize, fate: Fate) {
        let new = self.fate(start) == Fate::Unheard;
        self.tally.expect(new);
        if let Some(place) = self.fates.get_mut(start) {
            *place = fate;
        }
    }

    // A start rang. It must end at the last byte; a false one must have the pattern's fingerprint.
    fn rung(&mut self, case: Case, start: usize) {
        let m = case.pattern.len();
        count(&mut self.tally.rings, 1);
        self.tally
            .expect(start.wrapping_add(m) == case.stream.len());
        if !occurs(case.stream, start, case.pattern) {
            let block = until(behind(case.stream, start), m);
            count(&mut self.tally.false_rings, 1);
            self.tally.expect(print_of(block, case.key) == print_of(case.pattern, case.key));
        }
    }

    // The ring, whose start must be new; in the digest it is 0, or one more than the start.
    fn hear(&mut self, case: Case, ring: Option<u64>) {
        let Some(start) = ring else {
            self.tally.mix(0);
            return;
        };
        self.tally.mix(start.wrapping_add(1));
        self.report(start as usize, Fate::Rung);
        self.rung(case, start as usize);
    }

    // One start of a set: it must be new, and no whole pattern yet.
    fn put_aside(&mut self, case: Case, start: usize) {
        let heard = case.stream.len();
        count(&mut self.tally.aside, 1);
        self.tally.expect(start < heard && heard < start.wrapping_add(case.pattern.len()));
        self.report(start, Fate::SetAside);
    }

    // A set, which needs a collision; in the digest it is its three numbers.
    fn set_aside(&mut self, case: Case, set: Progression) {
        count(&mut self.tally.sets, 1);
        self.tally.mix(set.first);
        self.tally.mix(set.step as u64);
        self.tally.mix(set.many as u64);
        self.tally
            .expect(collides(case.stream, case.pattern, case.key));
        let mut start = set.first as usize;
        for _ in 0..set.many {
            self.put_aside(case, start);
            start = start.wrapping_add(set.step as usize);
        }
    }

    // An answer: its comparisons, 1 and at most one more for each stage; its ring; and its sets.
    pub(crate) fn take(&mut self, case: Case, answer: Answer) {
        let taken_off = answer.comparisons.wrapping_sub(1);
        self.tally.expect(taken_off <= stages(case.pattern.len()));
        count(&mut self.tally.comparisons, answer.comparisons);
        self.tally.mix(answer.comparisons as u64);
        self.tally.mix(answer.asides as u64);
        self.hear(case, answer.ring);
        for set in answer.set_asides() {
            self.set_aside(case, *set);
        }
    }

    // After the stream: an occurrence at a start was reported.
    fn settle_start(&mut self, start: usize) {
        let fate = self.fate(start);
        count(&mut self.tally.occurrences, 1);
        self.tally.expect(fate != Fate::Unheard);
        if fate == Fate::SetAside {
            count(&mut self.tally.missed, 1);
        }
    }

    // The same for every start.
    pub(crate) fn settle(&mut self, case: Case) {
        for start in 0..case.stream.len() {
            if occurs(case.stream, start, case.pattern) {
                self.settle_start(start);
            }
        }
    }
}
