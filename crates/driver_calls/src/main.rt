// Runs calls of the library: each call comes from standard input with its values, and all that it hands back goes to standard output.
// differential/calls.py says how calls and answers are written, and has the table of calls.
// (The input says which call is made, by its number: a `match` on it says so most plainly.)
#![tactic(auto)]

use driver_input::{buffer, from, number, past_buffer, until};
use driver_parts::{fields_of, prints, reports, searches, stages};
use driver_racks::{places, racks};
use driver_watches::{cards, records, walks, watches};

// The most bytes of calls in one run.
const ROOM: usize = 1048576;

// One call: its number, and behind it its values. A number that no call has answers nothing.
fn call(rt: &HostRuntime, op: u64, values: &[u8]) {
    match op {
        1..=15 => cards::call(rt, op, values),
        16..=27 => watches::call(rt, op, values),
        28..=31 => walks::call(rt, op, values),
        32..=36 => racks::call(rt, op, values),
        37..=47 => places::call(rt, op, values),
        48 => records::call(rt, op, values),
        49..=63 => reports::call(rt, op, values),
        64..=79 => prints::call(rt, op, values),
        80..=95 => stages::call(rt, op, values),
        96..=111 => fields_of::call(rt, op, values),
        _ => searches::call(rt, op, values),
    }
}

// Call after call, each a buffer of its own, as long as there is input left and less than before.
fn run(rt: &HostRuntime, input: &[u8]) {
    let mut left = input;
    while !left.is_empty() {
        let own = buffer(left);
        call(rt, number(own, 0), from(own, 1));
        let rest = past_buffer(left);
        if left.len() <= rest.len() {
            return;
        }
        left = rest;
    }
}

// Reads the calls and runs them. (As in `driver`: one for both would need a crate and a closure for six lines.)
fn serve(rt: &HostRuntime, room: &mut [u8; ROOM]) {
    let count = descriptor::fill(&mut rt.stdin(), room).unwrap_or_else(|failed| failed.count);
    run(rt, until(room, count));
}

fn main(rt: HostRuntime) {
    let mut room = [0u8; ROOM];
    serve(&rt, &mut room);
}
