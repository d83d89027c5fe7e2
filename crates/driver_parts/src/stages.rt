// Single stages, and places in the stream.
// (The input says which call is made, by its number: a `match` on it says so most plainly.)
use driver_answers::numbers::{tell, tell_all, tell_whether};
use driver_answers::values::{tell_set, tell_stage};
use driver_input::{from, number, word};
use driver_values::cards::key;
use driver_values::watches::{STAGE, mark, stage};
use powers::Powers;
use signature::MAX_LENGTH;
use stage::{Entry, Stage};

// The stage, and 1 and the set that was set aside, or four times 0.
fn tell_entry(rt: &HostRuntime, entry: Entry) {
    tell_stage(rt, entry.stage);
    match entry.aside {
        Some(set) => {
            tell(rt, 1);
            tell_set(rt, set);
        }
        None => tell_all(rt, &[0; 4]),
    }
}

fn tests(rt: &HostRuntime, stage: Stage, m: u32, i: u32, t: u64) {
    tell_whether(rt, stage.shape_fits(m, i, t));
    tell_whether(rt, stage.is_ripe(m, i, t));
    tell_whether(rt, stage.none_fits());
}

pub fn call(rt: &HostRuntime, op: u64, values: &[u8]) {
    let own = stage(values);
    let rest = from(values, STAGE);
    match op {
        80 => tell_stage(rt, own.take_off(key(rest, 0))),
        81 => tell_entry(rt, own.enter(key(rest, 0), mark(from(rest, 1)))),
        82 => tests(rt, own, word(rest, 0), word(rest, 1), number(rest, 2)),
        83 => tell_whether(rt, own.last_fits(&Powers::of(key(rest, 0), MAX_LENGTH))),
        84 => tell_whether(rt, own.listed_from(number(rest, 0))),
        85 => tell(
            rt,
            own.quiet_until(word(rest, 0), word(rest, 1), number(rest, 2)),
        ),
        86 => tell(rt, number(values, 1).saturating_sub(number(values, 0))),
        87 => tell_whether(rt, mark(values).fits()),
        _ => {}
    }
}
