// A rack's calls. The values of a call stand one behind another.
// (The input says which call is made, by its number: a `match` on it says so most plainly.)
use driver_answers::numbers::{tell_verdict, tell_whether};
use driver_answers::values::{tell_rack, tell_reports};
use driver_input::{byte, from, half};
use driver_values::cards::{card, key};
use driver_values::racks::{WHOLE, rack};
use rack::{Rack, Struck};
use rack_report::Reports;
use refusal::Refusal;

// How many numbers stand before the card that is put in.
const BEFORE_CARD: u32 = WHOLE + 1;

// A rack, or what stands in its place where the call is refused.
fn tell_changed(rt: &HostRuntime, refused: Rack, changed: Result<Rack, Refusal>) {
    tell_verdict(rt, &changed);
    tell_rack(rt, changed.unwrap_or(refused));
}

// The rack that holds nothing, which is read from no numbers, is handed back where the key is refused.
fn begin(rt: &HostRuntime, values: &[u8]) {
    tell_changed(rt, rack(&[]), Rack::begin(key(values, 0)));
}

fn put_in(rt: &HostRuntime, values: &[u8]) {
    let rack = rack(values);
    let card = card(from(values, BEFORE_CARD));
    tell_changed(rt, rack, rack.put_in(half(values, WHOLE), card));
}

fn take_out(rt: &HostRuntime, values: &[u8]) {
    let rack = rack(values);
    tell_changed(rt, rack, rack.take_out(half(values, WHOLE)));
}

fn stroke(rt: &HostRuntime, values: &[u8]) {
    let rack = rack(values);
    let outcome = rack.stroke(byte(values, WHOLE));
    tell_verdict(rt, &outcome);
    let struck = outcome.unwrap_or(Struck {
        reports: Reports::none(),
        rack,
    });
    tell_reports(rt, struck.reports);
    tell_rack(rt, struck.rack);
}

pub fn call(rt: &HostRuntime, op: u64, values: &[u8]) {
    match op {
        32 => begin(rt, values),
        33 => put_in(rt, values),
        34 => take_out(rt, values),
        35 => stroke(rt, values),
        36 => tell_whether(rt, rack(values).fits()),
        _ => {}
    }
}
