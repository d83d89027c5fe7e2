// Stages, watches and the answers to a byte.
ghost use Rattle.std.specs.Prelude.{◌≡◌, ◌*◌};
ghost use Rattle.lists.specs.Lists.{tabulate};
ghost use Rattle.stage.specs.Stages.{stage_count};
ghost use Rattle.driver_input.specs.Input.{numbers_from};
ghost use Rattle.driver_values.specs.Watches.{mark_in, gap_in, stage_in, stages_in, watch_in, set_in, ring_in, answer_in};

use crate::cards::{CARD, card, print};
use driver_input::{flag, from, number, word};
use matcher::Matcher;
use stage::{Gap, Mark, Progression, STAGES, Stage};
use std::array;
use walk::Answer;

// How many numbers a mark, a stage, all stages, a watch, a set and an answer have, and how many stand before a watch's stages.
pub const MARK: u32 = 2;

pub const STAGE: u32 = 7;

pub const ALL_STAGES: u32 = STAGE * STAGES as u32;

pub const WATCH: u32 = CARD + MARK + ALL_STAGES;

// A watch and one number more.
pub const AND_ONE: u32 = WATCH + 1;

const SET: u32 = 3;

pub const ANSWER: u32 = 4 + SET * STAGES as u32;

const BEFORE_STAGES: u32 = CARD + MARK;

// (A mark and a gap each have a reader, as in checkpoint_restore.)
#[tactic(auto, unfolding(crate::specs::Watches::mark_in))]
pub fn mark(values: &[u8]) -> Mark
    ensures { result ≡ mark_in values.now }
{
    Mark {
        at: number(values, 0),
        print: print(values, 1),
    }
}

#[tactic(auto, unfolding(crate::specs::Watches::gap_in))]
fn gap(values: &[u8]) -> Gap
    ensures { result ≡ gap_in values.now }
{
    Gap {
        length: word(values, 0),
        print: print(values, 1),
    }
}

#[tactic(auto, unfolding(crate::specs::Watches::stage_in))]
pub fn stage(values: &[u8]) -> Stage
    ensures { result ≡ stage_in values.now }
{
    Stage {
        held: word(values, 0),
        first: mark(from(values, 1)),
        last: mark(from(values, 3)),
        step: gap(from(values, 5)),
    }
}

pub fn stages(values: &[u8]) -> [Stage; STAGES]
    ensures { result ≡ stages_in values.now }
{
    array::from_fn(|i| stage(from(values, STAGE * (i as u32))))
}

#[tactic(auto, unfolding(crate::specs::Watches::watch_in))]
pub fn watch(values: &[u8]) -> Matcher
    ensures { result ≡ watch_in values.now }
{
    Matcher {
        signature: card(values),
        now: mark(from(values, CARD)),
        stages: stages(from(values, BEFORE_STAGES)),
    }
}

#[tactic(auto, unfolding(crate::specs::Watches::set_in))]
fn set(values: &[u8]) -> Progression
    ensures { result ≡ set_in values.now }
{
    Progression {
        first: number(values, 0),
        step: word(values, 1),
        many: word(values, 2),
    }
}

fn sets(values: &[u8]) -> [Progression; STAGES]
    ensures { result ≡ tabulate (λ i. set_in (numbers_from values.now (3 * i))) stage_count }
{
    array::from_fn(|i| set(from(values, SET * (i as u32))))
}

// A start that rang, where the first number says so.
#[tactic(auto, unfolding(crate::specs::Watches::ring_in))]
fn ring(values: &[u8]) -> Option<u64>
    ensures { result ≡ ring_in values.now }
{
    flag(values, 0).then_some(number(values, 1))
}

#[tactic(auto, unfolding(crate::specs::Watches::answer_in))]
pub fn answer(values: &[u8]) -> Answer
    ensures { result ≡ answer_in values.now }
{
    Answer {
        ring: ring(values),
        asides: word(values, 2),
        comparisons: word(values, 3),
        sets: sets(from(values, 4)),
    }
}
