// The streaming matcher (document 01, "Ladder"): a watch in a few hundred bytes, and its answer to each byte.
#![tactic(auto)]

ghost use Rattle.std.specs.Prelude.{◌≡◌, true, false, ◌&&◌, ◌≤◌, IfOk, IfSome};
ghost use Rattle.std.specs.Option.{is_some, unwrap_or};
ghost use Rattle.ladder.specs.Prefix.{levels};
ghost use Rattle.refusal.specs.Number.{number};
ghost use Rattle.signature.specs.Signature.{max_length};
ghost use Rattle.stage.specs.Stage.{stage_fits};
ghost use Rattle.stage.specs.Stages.{stages_fit, all_from, listed_from};
ghost use Rattle.walk.specs.Walk.{no_answer, compared};
ghost use Rattle.walk.specs.Quiet.{Unripe};
ghost use Rattle.matcher.specs.Matcher.{matcher_fits, fresh_refusal, fresh, blank, moved, no_matcher};
ghost use Rattle.matcher.specs.Stroke.{stroke_refusal, stroke_answer, after_stroke};
ghost use Rattle.matcher.specs.Shared.{shared_fits, shared_refusal, shared_answer, shared_stages};

use fingerprint::Fingerprint;
use powers::Powers;
use refusal::Refusal;
use signature::Signature;
use stage::{MAX_TAKEN, Mark, STAGES, Stage};
use walk::{Answer, Round};

// A watch: its card, t with F_t, and its stages.
#[derive(Clone, Copy)]
pub struct Matcher {
    pub signature: Signature,
    pub now: Mark,
    pub stages: [Stage; STAGES],
}

// What one byte brings: the answer, and the watch then.
#[derive(Clone, Copy)]
pub struct Stroke {
    pub answer: Answer,
    pub matcher: Matcher,
}

// What one byte brings to a watch that shares t and F_t with others: its stages then, if they were visited, and the answer.
#[derive(Clone, Copy)]
pub struct Turn {
    pub stages: Option<[Stage; STAGES]>,
    pub answer: Answer,
}

// Whether stage i of a watch over m bytes fits at t and lists no start below a count. F_last is judged last, of a stage whose other numbers fit.
#[tactic(auto, unfolding(stage::specs::Stage::stage_fits))]
fn stage_fits(stage: Stage, powers: &Powers, m: u32, i: u32, t: u64, since: u64) -> bool
    ensures { result ≡ (stage_fits powers.now.key m i t stage && listed_from since stage) }
{
    stage.shape_fits(m, i, t) && stage.listed_from(since) && stage.last_fits(powers)
}

// Whether each stage of a watch over m bytes fits at t and lists no start below a count, in one pass; if so, a t up to which no start becomes ripe,
// which is found if it is asked (a flag: asked at each byte, a rack's stroke was slower, as measured with A.5, and a
// stroke by itself has no use for it).
fn judge(
    stages: &[Stage; STAGES],
    powers: &Powers,
    m: u32,
    t: u64,
    since: u64,
    asked: bool,
) -> Option<u64>
    requires { (1 ≤ m) × (m ≤ max_length) }
    ensures fits { is_some result ≡ (stages_fit powers.now.key m t stages.now && all_from since stages.now) }
    ensures until { IfSome result (λ until. asked ≡ true → Unripe (levels m) m until stages.now) }
{
    let mut until = MAX_TAKEN;
    for (i, stage) in stages.iter().enumerate() {
        let i = i as u32;
        if !stage_fits(*stage, powers, m, i, t, since) {
            return None;
        }
        if asked {
            until = stage.quiet_until(m, i + 1, until);
        }
    }
    Some(until)
}

impl Turn {
    // A byte at which no start is ripe, and which is not P_0: one comparison, and the stages stay.
    fn quiet() -> Turn
        ensures { (result.stages ≡ None) × (result.answer ≡ compared no_answer) }
    {
        Turn {
            stages: None,
            answer: Answer {
                comparisons: 1,
                ..Answer::none()
            },
        }
    }
}

impl Matcher {
    // Whether a watch that shares the key of powers and t, since a count, is no misfit, and the t up to which it is quiet, if that is asked.
    #[tactic(auto, unfolding(fingerprint::specs::Fingerprint::same_key, crate::specs::Matcher::matcher_fits))]
    fn judged(&self, powers: &Powers, since: u64, asked: bool) -> Option<u64>
        ensures fits { is_some result ≡ shared_fits powers.now.key since self.entry.now }
        ensures until { IfSome result (λ until. asked ≡ true → Unripe (levels self.entry.now.signature.length) self.entry.now.signature.length until self.entry.now.stages) }
    {
        if self.signature.key == powers.key()
            && since <= self.now.at
            && self.signature.fits()
            && self.now.fits()
        {
            judge(
                &self.stages,
                powers,
                self.signature.length,
                self.now.at,
                since,
                asked,
            )
        } else {
            None
        }
    }

    // The same of a watch that is to take a byte. Refusals: 10 misfit, 6 spent. (Powers, count and flag are what each caller has of its own: a struct
    // of them would be made for these three functions alone.)
    fn ready(&self, powers: &Powers, since: u64, asked: bool) -> Result<u64, Refusal>
        ensures verdict { number result ≡ shared_refusal powers.now.key since self.entry.now }
        ensures until { IfOk result (λ until. asked ≡ true → Unripe (levels self.entry.now.signature.length) self.entry.now.signature.length until self.entry.now.stages) }
    {
        let until = self.judged(powers, since, asked).ok_or(Refusal::Misfit)?;
        if MAX_TAKEN <= self.now.at {
            return Err(Refusal::Spent);
        }
        Ok(until)
    }

    // Takes one byte of the stream, for a watch that shares key, t and F_t with others since a count. Refusals: 10 misfit, also for a card
    // with another key, a count above t and a start below it; 6 spent.
    pub fn stroke_shared(self, powers: &Powers, since: u64, byte: u8) -> Result<Turn, Refusal>
        ensures verdict { number result ≡ shared_refusal powers.now.key since self }
        ensures stages { IfOk result (λ turn. unwrap_or turn.stages self.stages ≡ shared_stages powers.now.key since self byte) }
        ensures answer { IfOk result (λ turn. turn.answer ≡ shared_answer powers.now.key since self byte) }
    {
        let other = self.signature.prints[0] != Fingerprint::of_byte(byte);
        let until = self.ready(powers, since, other)?;
        let now = self.now.next(self.signature.key, byte);
        if other && now.at <= until {
            return Ok(Turn::quiet());
        }
        let shifts = powers.shifts(self.signature.length);
        let round = Round {
            signature: self.signature,
            now,
        };
        let walk = walk::climb(round, shifts, self.now, self.stages);
        Ok(Turn {
            stages: Some(walk.stages),
            answer: walk.answer,
        })
    }

    // Whether the watch is no misfit.
    pub fn fits(self) -> bool
        ensures { result ≡ matcher_fits self }
    {
        let powers = Powers::of(self.signature.key, self.signature.length);
        self.judged(&powers, 0, false).is_some()
    }

    // A watch that has taken no byte, of a card that no one judged.
    fn blank(signature: Signature) -> Matcher
        ensures { result ≡ blank signature }
    {
        Matcher {
            signature,
            now: Mark::origin(),
            stages: [Stage::none(); STAGES],
        }
    }

    // The watch with another t, F_t and stages, which no one judges.
    pub fn moved(self, now: Mark, stages: [Stage; STAGES]) -> Matcher
        ensures { result ≡ moved self now stages }
    {
        Matcher {
            now,
            stages,
            ..self
        }
    }

    // The watch that holds nothing: every call refuses it with 10.
    pub fn none() -> Matcher
        ensures { result ≡ no_matcher }
    {
        Matcher::blank(Signature::none())
    }

    // A fresh watch of a card. Refusal: 10 misfit.
    pub fn start(signature: Signature) -> Result<Matcher, Refusal>
        ensures verdict { number result ≡ fresh_refusal signature }
        ensures matcher { IfOk result (λ matcher. matcher ≡ fresh signature) }
    {
        if !signature.fits() {
            return Err(Refusal::Misfit);
        }
        Ok(Matcher::blank(signature))
    }

    // Takes one byte of the stream. Refusals: 10 misfit, 6 spent. (The walk is called here and in `stroke_shared`: by way of that one the stages
    // would be copied once more.)
    pub fn stroke(self, byte: u8) -> Result<Stroke, Refusal>
        ensures verdict { number result ≡ stroke_refusal self }
        ensures answer { IfOk result (λ stroke. stroke.answer ≡ stroke_answer self byte) }
        ensures matcher { IfOk result (λ stroke. stroke.matcher ≡ after_stroke self byte) }
    {
        let powers = Powers::of(self.signature.key, self.signature.length);
        self.ready(&powers, 0, false)?;
        let now = self.now.next(self.signature.key, byte);
        let shifts = powers.shifts(self.signature.length);
        let round = Round {
            signature: self.signature,
            now,
        };
        let walk = walk::climb(round, shifts, self.now, self.stages);
        Ok(Stroke {
            answer: walk.answer,
            matcher: self.moved(now, walk.stages),
        })
    }
}
