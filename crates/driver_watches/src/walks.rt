// What a stroke is made of: the walk over the stages, the watch moved on, answers and their notes.
// (The input says which call is made, by its number: a `match` on it says so most plainly.)
use driver_answers::numbers::{tell_list, tell_size, tell_whether};
use driver_answers::values::{tell_answer, tell_stages, tell_watch};
use driver_input::{LIST, from, lend_list, number};
use driver_values::cards::{CARD, card, key};
use driver_values::watches::{ANSWER, MARK, WATCH, answer, mark, stages, watch};
use matcher::Matcher;
use notes::put_answer;
use powers::Powers;
use signature::MAX_LENGTH;
use walk::{Round, climb};

// How many numbers stand before the list that an answer is noted in.
const BEFORE_LIST: u32 = 2 + ANSWER;

// The walk of a card at a mark, under the powers of a key; behind the card the mark, the key, the newcomer and the stages.
fn walk(rt: &HostRuntime, values: &[u8]) {
    let signature = card(values);
    let rest = from(values, CARD);
    let shifts = Powers::of(key(rest, 2), MAX_LENGTH).shifts(signature.length);
    let round = Round {
        signature,
        now: mark(rest),
    };
    let walk = climb(round, shifts, mark(from(rest, 3)), stages(from(rest, 5)));
    tell_answer(rt, walk.answer);
    tell_stages(rt, walk.stages);
}

// A watch moved on; behind it the mark and the stages.
fn moved(values: &[u8]) -> Matcher {
    let rest = from(values, WATCH);
    watch(values).moved(mark(rest), stages(from(rest, MARK)))
}

fn note(rt: &HostRuntime, values: &[u8]) {
    let mut room = [0u64; LIST];
    let notes = lend_list(from(values, BEFORE_LIST), &mut room);
    let at = number(values, 0) as usize;
    let answer = answer(from(values, 2));
    tell_size(rt, put_answer(notes, at, number(values, 1), answer));
    tell_list(rt, notes);
}

pub fn call(rt: &HostRuntime, op: u64, values: &[u8]) {
    match op {
        28 => tell_watch(rt, moved(values)),
        29 => walk(rt, values),
        30 => tell_whether(rt, answer(values).is_silent()),
        31 => note(rt, values),
        _ => {}
    }
}
