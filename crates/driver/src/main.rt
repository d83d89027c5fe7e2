// Runs calls of the library: each call comes from standard input with its values, and all that it hands back goes to standard output.
// differential/calls.py says how calls and answers are written, and has the table of calls.
// (The input says which call is made, by its number: a `match` on it says so most plainly.)
#![tactic(auto)]

use driver_input::{from, number, past_buffer, past_list, until};
use driver_parts::{prints, reports, stages};
use driver_racks::racks;
use driver_values::cards::{BUILDER, CARD};
use driver_values::racks::WHOLE;
use driver_values::watches::{AND_ONE, STAGE, WATCH};
use driver_watches::{cards, records, watches};

// The most bytes of calls in one run.
const ROOM: usize = 1048576;

// What stands behind the values of a call of cards or of watches.
fn past_watch(op: u64, values: &[u8]) -> &[u8] {
    match op {
        1 => from(values, 2),
        2 => from(values, BUILDER + 1),
        3 | 8 => from(values, BUILDER),
        4 | 24 => past_buffer(from(values, CARD)),
        5 => past_buffer(values),
        6 => from(past_buffer(values), 1),
        7 => past_buffer(from(past_buffer(values), 1)),
        9 | 16 => from(values, CARD),
        17 | 18 => from(values, AND_ONE),
        19 | 20 | 22 => past_buffer(from(values, WATCH)),
        21 | 23 => past_buffer(from(values, AND_ONE)),
        25 => past_list(past_buffer(from(values, AND_ONE))),
        26 => from(values, WATCH),
        _ => from(values, WATCH + 3),
    }
}

// What stands behind the values of any other call.
fn past(op: u64, values: &[u8]) -> &[u8] {
    match op {
        0..=31 => past_watch(op, values),
        32 => from(values, 1),
        33 => from(values, WHOLE + 1 + CARD),
        34 | 35 => from(values, WHOLE + 1),
        36 => from(values, WHOLE),
        48 => past_buffer(past_buffer(from(values, 2))),
        56 => past_buffer(values),
        57 => past_buffer(past_buffer(from(values, AND_ONE))),
        64 | 68 => from(values, 3),
        65 | 66 => from(values, 4),
        67 => from(values, 2),
        80 => from(values, STAGE + 1),
        _ => from(values, STAGE + 3),
    }
}

// One call, at the front of the input; what is left behind it. Where no call has its number, nothing is left.
fn call<'a>(rt: &HostRuntime, input: &'a [u8]) -> &'a [u8] {
    let op = number(input, 0);
    let values = from(input, 1);
    match op {
        1..=9 => cards::call(rt, op, values),
        16..=27 => watches::call(rt, op, values),
        32..=36 => racks::call(rt, op, values),
        48 => records::call(rt, op, values),
        56 | 57 => reports::call(rt, op, values),
        64..=68 => prints::call(rt, op, values),
        80 | 81 => stages::call(rt, op, values),
        _ => return &values[..0],
    }
    past(op, values)
}

// Call after call, as long as there is input left and less than before.
fn run(rt: &HostRuntime, input: &[u8]) {
    let mut left = input;
    while !left.is_empty() {
        let rest = call(rt, left);
        if left.len() <= rest.len() {
            return;
        }
        left = rest;
    }
}

// Reads the calls and runs them. (As in `driver_calls`: one for both would need a crate and a closure for six lines.)
fn serve(rt: &HostRuntime, room: &mut [u8; ROOM]) {
    let count = descriptor::fill(&mut rt.stdin(), room).unwrap_or_else(|failed| failed.count);
    run(rt, until(room, count));
}

fn main(rt: HostRuntime) {
    let mut room = [0u8; ROOM];
    serve(&rt, &mut room);
}
