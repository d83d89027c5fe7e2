// One byte's walk over the stages of a watch (document 01, "Ladder"), and the answer that comes of it.
#![tactic(auto)]

ghost use Rattle.std.specs.Prelude.{◌≡◌, ◌<◌, ◌≤◌, min, take};
ghost use Rattle.fingerprint.specs.Fingerprint.{same, rest_by};
ghost use Rattle.ladder.specs.Prefix.{levels};
ghost use Rattle.stage.specs.Stages.{stage_count};
ghost use Rattle.walk.specs.Walk.{no_answer, silent, with_set};
ghost use Rattle.walk.specs.Climb.{tried_by, walked_by};

use fingerprint::{Fingerprint, Power};
use signature::{MAX_LENGTH, PLACES, Signature};
use stage::{Mark, Progression, STAGES, Stage};

// The answer to a byte: the start that rang, if one did; the sets set aside, highest stage first, as many as `asides` says (an array, since no
// memory is asked for); the number of comparisons.
#[derive(Clone, Copy)]
pub struct Answer {
    pub ring: Option<u64>,
    pub sets: [Progression; STAGES],
    pub asides: u32,
    pub comparisons: u32,
}

// A card and the mark of t and F_t: what stays the same while the stages are visited.
#[derive(Clone, Copy)]
pub struct Round {
    pub signature: Signature,
    pub now: Mark,
}

// What has come of a byte so far: the stages, and the answer as it grows.
#[derive(Clone, Copy)]
pub struct Walk {
    pub stages: [Stage; STAGES],
    pub answer: Answer,
}

impl Answer {
    // The answer before anything was found.
    pub fn none() -> Answer
        ensures { result ≡ no_answer }
    {
        let nothing = Progression {
            first: 0,
            step: 0,
            many: 0,
        };
        Answer {
            ring: None,
            sets: [nothing; STAGES],
            asides: 0,
            comparisons: 0,
        }
    }

    // One set more.
    fn set_aside(&mut self, set: Progression)
        requires { self.old.asides < stage_count }
        ensures { self.new ≡ with_set set self.old }
    {
        self.sets[self.asides as usize] = set;
        self.asides += 1;
    }

    // The sets that count.
    pub fn set_asides(&self) -> &[Progression]
        ensures { result.now ≡ take (min self.now.asides stage_count) self.now.sets }
    {
        &self.sets[..(self.asides as usize).min(STAGES)]
    }

    // Whether there is no ring and no set.
    pub fn is_silent(self) -> bool
        ensures { result ≡ silent self }
    {
        self.ring.is_none() && self.asides == 0
    }
}

// Whether the block from a start to now has a fingerprint, where `shift` is the power by which the block is cut out.
#[tactic(auto, unfolding(fingerprint::specs::Fingerprint::same))]
fn matches(shift: Power, start: Mark, now: Mark, print: Fingerprint) -> bool
    ensures { result ≡ same (rest_by shift now.print start.print) print }
{
    now.print.cut_by(start.print, shift) == print
}

impl Walk {
    // A start is compared with P_i, of P_0 to P_k. On a match it rings if i is k, else it enters stage i. (k is found once for a byte.)
    #[tactic(auto, unfolding(crate::specs::Climb::tried_by, crate::specs::Climb::promoted_by))]
    fn compare(&mut self, c: &Round, shifts: &[Power; PLACES], i: usize, k: usize, start: Mark)
        requires top { (k ≡ levels c.now.signature.length) × (k ≤ stage_count) }
        requires place { i ≤ k }
        requires room { (self.old.answer.asides < stage_count) × (self.old.answer.comparisons ≤ stage_count) }
        ensures { self.new ≡ tried_by shifts.now c.entry.now i start self.old }
    {
        self.answer.comparisons += 1;
        if !matches(shifts[i], start, c.now, c.signature.prints[i]) {
            return;
        }
        if i == k {
            self.answer.ring = Some(start.at);
            return;
        }
        let entry = self.stages[i].enter(c.signature.key, start);
        self.stages[i] = entry.stage;
        if let Some(set) = entry.aside {
            self.answer.set_aside(set);
        }
    }
}

// One byte's walk. The stages are visited from the highest down: a ripe start is taken off and compared; on a match it rings or enters the stage
// above. Then the start before the byte is compared with P_0. It is the ladder's walk where `shifts` are the powers of the card's key; no number
// leaves its range whatever they are.
#[tactic(auto, using(crate::proofs::Rounds::turn_unripe), unfolding(crate::specs::Climb::walked_by))]
pub fn climb(c: Round, shifts: [Power; PLACES], start: Mark, before: [Stage; STAGES]) -> Walk
    ensures { result ≡ walked_by shifts c start before }
{
    let m = c.signature.length;
    let k = signature::levels(m);
    let mut w = Walk {
        stages: before,
        answer: Answer::none(),
    };
    if MAX_LENGTH < m {
        return w;
    }
    for i in (0..k).rev() {
        let stage = w.stages[i as usize];
        if stage.is_ripe(m, i + 1, c.now.at) {
            w.stages[i as usize] = stage.take_off(c.signature.key);
            w.compare(&c, &shifts, (i + 1) as usize, k as usize, stage.first);
        }
    }
    w.compare(&c, &shifts, 0, k as usize, start);
    w
}
