// A watch's calls, and watches from records. The values of a call stand one behind another.
// (The input says which call is made, by its number: a `match` on it says so most plainly.)
use crate::records;
use checkpoint_restore::{Restored, restore};
use driver_answers::numbers::{tell, tell_list, tell_size, tell_verdict, tell_whether};
use driver_answers::values::{tell_answer, tell_stages, tell_watch};
use driver_input::{LIST, buffer, byte, from, lend_list, number, past_buffer};
use driver_values::cards::{CARD, card, key};
use driver_values::watches::{AND_ONE, WATCH, watch};
use matcher::{Matcher, Stroke};
use powers::Powers;
use refusal::Refusal;
use scanner::Ended;
use signature::MAX_LENGTH;
use walk::Answer;

fn tell_started(rt: &HostRuntime, started: Result<Matcher, Refusal>) {
    tell_verdict(rt, &started);
    tell_watch(rt, started.unwrap_or(Matcher::none()));
}

// The answer to a byte, and the watch then, which is handed back: a refused byte brings the empty answer, and the watch stays as it was.
fn tell_stroke(rt: &HostRuntime, before: Matcher, struck: Result<Stroke, Refusal>) -> Matcher {
    tell_verdict(rt, &struck);
    let stroke = struck.unwrap_or(Stroke {
        answer: Answer::none(),
        matcher: before,
    });
    tell_answer(rt, stroke.answer);
    tell_watch(rt, stroke.matcher);
    stroke.matcher
}

fn stroke(rt: &HostRuntime, watch: Matcher, byte: u8) {
    tell_stroke(rt, watch, watch.stroke(byte));
}

// Where the stroke is refused, the watch that is told is the one that was lent.
fn stroke_in_place(rt: &HostRuntime, watch: Matcher, byte: u8) {
    let mut lent = watch;
    let _ = in_place::stroke(&mut lent, byte);
    tell_stroke(rt, lent, in_place::stroke_local(watch, byte));
}

// A stream: each of its bytes has an answer.
fn strokes(rt: &HostRuntime, watch: Matcher, stream: &[u8]) {
    let mut w = watch;
    for byte in stream {
        w = tell_stroke(rt, w, w.stroke(*byte));
    }
}

fn tell_restored(rt: &HostRuntime, restored: Result<Restored, Refusal>) {
    tell_verdict(rt, &restored);
    let watch = restored.unwrap_or(Restored {
        matcher: Matcher::none(),
        taken: 0,
    });
    tell_size(rt, watch.taken);
    tell_watch(rt, watch.matcher);
}

fn tell_scan(rt: &HostRuntime, scan: Ended, notes: &[u64]) {
    tell_verdict(rt, &scan.verdict);
    tell_size(rt, scan.noted);
    tell(rt, scan.comparisons);
    tell_size(rt, scan.next);
    tell_watch(rt, scan.matcher);
    tell_list(rt, notes);
}

fn scan(rt: &HostRuntime, values: &[u8]) {
    let mut room = [0u64; LIST];
    let stream = from(values, AND_ONE);
    let notes = lend_list(past_buffer(stream), &mut room);
    let from = number(values, WATCH) as usize;
    let scan = scanner::scan(watch(values), buffer(stream), from, notes);
    tell_scan(rt, scan, notes);
}

// A stroke as a rack makes it: under a table of a key's powers, of a watch that was put in at a count. The stages stay where they are not visited.
fn stroke_shared(rt: &HostRuntime, watch: Matcher, values: &[u8]) {
    let powers = Powers::of(key(values, 0), MAX_LENGTH);
    let turned = watch.stroke_shared(&powers, number(values, 1), byte(values, 2));
    let stages = turned.ok().and_then(|turn| turn.stages);
    tell_verdict(rt, &turned);
    tell_whether(rt, stages.is_some());
    tell_answer(rt, turned.map_or(Answer::none(), |turn| turn.answer));
    tell_stages(rt, stages.unwrap_or(watch.stages));
}

pub fn call(rt: &HostRuntime, op: u64, values: &[u8]) {
    match op {
        16 => tell_started(rt, Matcher::start(card(values))),
        17 => stroke(rt, watch(values), byte(values, WATCH)),
        18 => stroke_in_place(rt, watch(values), byte(values, WATCH)),
        19 => strokes(rt, watch(values), buffer(from(values, WATCH))),
        24 => tell_restored(rt, restore(card(values), buffer(from(values, CARD)))),
        25 => scan(rt, values),
        26 => tell_whether(rt, watch(values).fits()),
        27 => stroke_shared(rt, watch(values), from(values, WATCH)),
        20..=23 => records::call(rt, op, values),
        _ => {}
    }
}
