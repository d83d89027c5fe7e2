// The plain search, and values that hold nothing.
// (The input says which call is made, by its number: a `match` on it says so most plainly.)
use driver_answers::numbers::{tell_whether, tell_word};
use driver_answers::values::{
    tell_answer, tell_card, tell_key, tell_mark, tell_place, tell_reports, tell_stage, tell_watch,
};
use driver_input::{buffer, byte, from, number, past_buffer, word};
use fingerprint::Key;
use matcher::Matcher;
use naive_search::{collides, more, occurs, print_of};
use rack_names::no_labels;
use rack_place::Place;
use rack_report::Reports;
use signature::Signature;
use stage::{Mark, Stage};
use walk::Answer;

fn nothing(rt: &HostRuntime) {
    tell_card(rt, Signature::none());
    tell_watch(rt, Matcher::none());
    tell_stage(rt, Stage::none());
    tell_place(rt, Place::none());
    tell_answer(rt, Answer::none());
    tell_reports(rt, Reports::none());
    for label in no_labels() {
        tell_word(rt, label);
    }
    tell_key(rt, Key::none());
    tell_mark(rt, Mark::origin());
}

// The stream is the first value behind a number, and what is searched in it the second.
pub fn call(rt: &HostRuntime, op: u64, values: &[u8]) {
    let rest = from(values, 1);
    let stream = buffer(rest);
    let pattern = buffer(past_buffer(rest));
    match op {
        112 => tell_whether(rt, occurs(stream, number(values, 0) as usize, pattern)),
        113 => tell_word(rt, more(word(values, 0), word(values, 1), byte(values, 2))),
        114 => tell_word(rt, print_of(stream, word(values, 0))),
        115 => tell_whether(rt, collides(stream, pattern, word(values, 0))),
        116 => tell_word(rt, naive_search::stages(number(values, 0) as usize)),
        120 => nothing(rt),
        _ => {}
    }
}
