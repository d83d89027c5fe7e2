// One stage of a watch (document 01, "Ladder" and "Misfit"): the starts that it lists, when it misfits, and how starts come and go.
#![tactic(auto)]

ghost use Rattle.std.specs.Prelude.{◌≡◌, true, ℕ, ◌+◌, ◌-◌, ◌≤◌, ◌<◌};
ghost use Rattle.fingerprint.specs.declared.Key.{Key};
ghost use Rattle.ladder.specs.Prefix.{prefix_length};
ghost use Rattle.powers.specs.Powers.{powers_of};
ghost use Rattle.stage.specs.Stage.{max_taken, max_count, origin, now_fits, no_gap, no_stage, age_fits, none_fits, one_fits, many_fit, stage_prints_fit, reach_fits, shape_fits, last_fits, next_mark, gap_to, forward, alone, take_off_of, can_enter, entry_of, ripe_at, quiet_until};
ghost use Rattle.stage.specs.Stages.{listed_from};

use fingerprint::{Fingerprint, Key};
use powers::Powers;

// The most bytes that a watch takes, and so the last place in a stream.
pub const MAX_TAKEN: u64 = 1099511627775;

// The most starts that a stage counts, and the longest step: both have 32 bits.
const MAX_COUNT: u32 = u32::MAX;

// Places for stages.
pub const STAGES: usize = 20;

// A place in the stream, with the fingerprint of all bytes before it: a start and its F, or t and F_t.
#[derive(Clone, Copy, PartialEq, Eq, Debug)]
pub struct Mark {
    pub at: u64,
    pub print: Fingerprint,
}

// A block of the stream, by its length and fingerprint: the step and the step print.
#[derive(Clone, Copy, PartialEq, Eq, Debug)]
pub struct Gap {
    pub length: u32,
    pub print: Fingerprint,
}

// The starts of one stage, an arithmetic progression: how many are held, the first, the last and the step between them. One that lists nothing
// holds 0 and is all 0, as a record has it (document 01, "Misfit").
#[derive(Clone, Copy, PartialEq, Eq, Debug)]
pub struct Stage {
    pub held: u32,
    pub first: Mark,
    pub last: Mark,
    pub step: Gap,
}

// A set that was set aside: first, step and how many.
#[derive(Clone, Copy, PartialEq, Eq, Debug)]
pub struct Progression {
    pub first: u64,
    pub step: u32,
    pub many: u32,
}

// What entering makes of a stage: the stage then, and the set that was set aside, if one was.
#[derive(Clone, Copy, PartialEq, Eq, Debug)]
pub struct Entry {
    pub stage: Stage,
    pub aside: Option<Progression>,
}

impl Mark {
    // No bytes, whose fingerprint is 0.
    pub fn origin() -> Mark
        ensures { result ≡ origin }
    {
        Mark {
            at: 0,
            print: Fingerprint::empty(),
        }
    }

    // Whether t with F_t is no misfit.
    pub fn fits(self) -> bool
        ensures { result ≡ now_fits self }
    {
        self.at <= MAX_TAKEN && self.print.fits() && signature::running_fits(self.at, self.print)
    }

    // The mark behind one byte more. Behind the last place there is none, and the mark stays.
    pub fn next(self, key: Key, byte: u8) -> Mark
        ensures more { self.at < max_taken → result ≡ next_mark key self byte }
        ensures last { max_taken ≤ self.at → result ≡ self }
    {
        if MAX_TAKEN <= self.at {
            return self;
        }
        Mark {
            at: self.at + 1,
            print: self.print.push(key, byte),
        }
    }

    // The block from here to another mark.
    fn gap_to(self, key: Key, to: Mark) -> Gap
        requires { to.at - self.at ≤ max_count }
        ensures { result ≡ gap_to key self to }
    {
        let length = to.at.saturating_sub(self.at);
        Gap {
            length: length as u32,
            print: to.print.cut(key, self.print, length),
        }
    }

    // The mark behind a block that starts here.
    fn forward(self, key: Key, gap: Gap) -> Mark
        requires { self.at + gap.length ≤ max_taken }
        ensures { result ≡ forward key self gap }
    {
        let length = gap.length as u64;
        Mark {
            at: self.at + length,
            print: self.print.join(key, gap.print, length),
        }
    }
}

impl Gap {
    fn none() -> Gap
        ensures { result ≡ no_gap }
    {
        Gap {
            length: 0,
            print: Fingerprint::empty(),
        }
    }
}

// Whether t - start is from `short` to `long` - 1. (Three numbers: `age_fits`, `one_fits` and `many_fit` of specs/ have them one by one.)
fn age_fits(short: u32, long: u32, t: u64, start: u64) -> bool
    ensures { result ≡ age_fits short long t start }
{
    start <= t && (short as u64) <= t - start && t - start < (long as u64)
}

// Whether `last` is `first` + n × `step`.
fn reach_fits(first: u64, last: u64, n: u32, step: u32) -> bool
    ensures { result ≡ reach_fits first last n step }
{
    first <= last && last - first == (n as u64) * (step as u64)
}

impl Stage {
    // A stage that lists nothing.
    pub fn none() -> Stage
        ensures { result ≡ no_stage }
    {
        let origin = Mark::origin();
        Stage {
            held: 0,
            first: origin,
            last: origin,
            step: Gap::none(),
        }
    }

    // A stage that lists one start.
    fn alone(mark: Mark) -> Stage
        ensures { result ≡ alone mark }
    {
        Stage {
            held: 1,
            first: mark,
            last: mark,
            step: Gap::none(),
        }
    }

    // Held 0: the rest is 0.
    #[tactic(auto, unfolding(crate::specs::Stage::none_fits, fingerprint::specs::Fingerprint::same))]
    pub fn none_fits(self) -> bool
        ensures { result ≡ none_fits self }
    {
        self.first == Mark::origin() && self.last == Mark::origin() && self.step == Gap::none()
    }

    // Held 1: the last is the first, and there is no step.
    #[tactic(auto, unfolding(crate::specs::Stage::one_fits, fingerprint::specs::Fingerprint::same))]
    fn one_fits(self, short: u32, long: u32, t: u64) -> bool
        ensures { result ≡ one_fits short long t self }
    {
        self.first.print.fits()
            && age_fits(short, long, t, self.first.at)
            && self.last == self.first
            && self.step == Gap::none()
    }

    // Held 2 or more: a step, which leads from the first to the last.
    #[tactic(auto, unfolding(crate::specs::Stage::many_fit))]
    fn many_fit(self, short: u32, long: u32, t: u64) -> bool
        requires { 1 ≤ self.held }
        ensures { result ≡ many_fit short long t self }
    {
        self.prints_fit()
            && age_fits(short, long, t, self.first.at)
            && age_fits(short, long, t, self.last.at)
            && self.step.length != 0
            && reach_fits(self.first.at, self.last.at, self.held - 1, self.step.length)
    }

    // Whether the stage's three fingerprints are below P.
    fn prints_fit(self) -> bool
        ensures { result ≡ stage_prints_fit self }
    {
        self.first.print.fits() && self.last.print.fits() && self.step.print.fits()
    }

    // Whether document 01's rules hold of stage i of a watch over m bytes, at t.
    #[tactic(auto, using(crate::proofs::Levels::short_below, crate::proofs::Levels::whole_past, crate::proofs::Levels::short_small), unfolding(crate::specs::Stage::shape_fits))]
    pub fn shape_fits(self, m: u32, i: u32, t: u64) -> bool
        ensures { result ≡ shape_fits m i t self }
    {
        if self.held == 0 {
            return self.none_fits();
        }
        let short = signature::prefix_length(m, i);
        if m <= short {
            return false;
        }
        let long = signature::prefix_length(m, i + 1);
        if self.held == 1 {
            self.one_fits(short, long, t)
        } else {
            self.many_fit(short, long, t)
        }
    }

    // Held 2 or more: F_last is F_first with the step print joined held - 1 times (document 02, A.7), in as many joins as held has binary
    // digits, twice.
    #[tactic(auto, unfolding(crate::specs::Stage::last_fits, fingerprint::specs::Fingerprint::same))]
    pub fn last_fits(self, powers: &Powers) -> bool
        ensures { result ≡ last_fits powers.now.key self }
    {
        if self.held < 2 {
            return true;
        }
        let shift = powers.raise(self.step.length);
        let reached = self
            .first
            .print
            .join_times(self.step.print, shift, self.held - 1);
        self.last.print == reached
    }

    // The stage without its first start. A stage that holds none, or whose second start is past the last place, loses all.
    #[tactic(auto, using(crate::proofs::Moves::off_few, crate::proofs::Moves::off_past, crate::proofs::Moves::off_two, crate::proofs::Moves::off_more))]
    pub fn take_off(self, key: Key) -> Stage
        ensures { result ≡ take_off_of key self }
    {
        if self.held <= 1
            || MAX_TAKEN < self.first.at
            || MAX_TAKEN - self.first.at < (self.step.length as u64)
        {
            return Stage::none();
        }
        if self.held == 2 {
            return Stage::alone(self.last);
        }
        Stage {
            held: self.held - 1,
            first: self.first.forward(key, self.step),
            ..self
        }
    }

    // Whether one start more can be counted, and the gap to it, if there is one, said.
    fn can_enter(self, new: Mark) -> bool
        ensures { result ≡ can_enter self new }
    {
        self.held == 0
            || (self.held < MAX_COUNT && new.at.saturating_sub(self.last.at) <= (MAX_COUNT as u64))
    }

    // The stage with a newcomer behind its last start. A stage that holds as many as can be counted, or whose last start is too far off, loses
    // all.
    #[tactic(auto, using(crate::proofs::Moves::enter_none, crate::proofs::Moves::enter_full))]
    pub fn enter(self, key: Key, new: Mark) -> Entry
        ensures { result ≡ entry_of key self new }
    {
        if !self.can_enter(new) {
            return Entry {
                stage: Stage::none(),
                aside: None,
            };
        }
        if self.held == 0 {
            return Entry {
                stage: Stage::alone(new),
                aside: None,
            };
        }
        let gap = self.last.gap_to(key, new);
        self.join(gap, new)
    }

    // The same for a stage that lists a start, where `gap` leads from its last one to the newcomer.
    #[tactic(auto, using(crate::proofs::Moves::enter_second, crate::proofs::Moves::enter_longer, crate::proofs::Moves::enter_aside), unfolding(fingerprint::specs::Fingerprint::same))]
    fn join(self, gap: Gap, new: Mark) -> Entry
        requires { (1 ≤ self.held) × (self.held < max_count) × (new.at - self.last.at ≤ max_count) }
        ensures { (key : Key) → gap ≡ gap_to key self.last new → result ≡ entry_of key self new }
    {
        let pair = Stage {
            held: 2,
            first: self.last,
            last: new,
            step: gap,
        };
        if self.held == 1 {
            return Entry {
                stage: pair,
                aside: None,
            };
        }
        if gap == self.step {
            return Entry {
                stage: Stage {
                    held: self.held + 1,
                    last: new,
                    ..self
                },
                aside: None,
            };
        }
        Entry {
            stage: pair,
            aside: Some(Progression {
                first: self.first.at,
                step: self.step.length,
                many: self.held - 1,
            }),
        }
    }

    // Whether the stage's first start is t - |P_i|, of a pattern of m bytes: i is the number of the stage above.
    pub fn is_ripe(self, m: u32, i: u32, t: u64) -> bool
        ensures { result ≡ ripe_at (prefix_length m i) t self }
    {
        if self.held == 0 {
            return false;
        }
        let length = signature::prefix_length(m, i) as u64;
        length <= t && self.first.at == t - length
    }

    // Whether the stage lists no start below a count.
    pub fn listed_from(self, since: u64) -> bool
        ensures { result ≡ listed_from since self }
    {
        self.held == 0 || (since <= self.first.at && since <= self.last.at)
    }

    // `until`, or less: the last t at which the first start is not yet ripe, which it is |P_i| bytes behind itself.
    pub fn quiet_until(self, m: u32, i: u32, until: u64) -> u64
        ensures { result ≡ quiet_until (prefix_length m i) until self }
    {
        if self.held == 0 {
            return until;
        }
        let length = signature::prefix_length(m, i) as u64;
        if until < length || until - length < self.first.at {
            return until;
        }
        (self.first.at + length).saturating_sub(1)
    }
}
