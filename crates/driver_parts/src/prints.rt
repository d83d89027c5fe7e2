// Fingerprints and powers. A power is seen by what it does to a fingerprint.
// (The input says which call is made, by its number: a `match` on it says so most plainly.)
use driver_answers::numbers::tell_whether;
use driver_answers::values::{tell_key, tell_print};
use driver_input::{byte, number, word};
use driver_values::cards::{key, print};
use fingerprint::{Fingerprint, Key, Power};
use powers::Powers;
use signature::{MAX_LENGTH, levels};

fn tests(rt: &HostRuntime, one: Fingerprint, other: Fingerprint) {
    tell_whether(rt, one == other);
    tell_whether(rt, one.fits());
    tell_whether(rt, one.is_of_byte());
}

fn key_tests(rt: &HostRuntime, one: Key, other: Key) {
    tell_whether(rt, one.fits());
    tell_whether(rt, one == other);
}

// The power that number i of a key and number j of an exponent make.
fn power(values: &[u8], i: u32, j: u32) -> Power {
    key(values, i).power(number(values, j))
}

fn tell_power(rt: &HostRuntime, print: Fingerprint, power: Power) {
    tell_print(rt, print.join_by(Fingerprint::empty(), power));
}

fn table(values: &[u8]) -> Powers {
    Powers::of(key(values, 0), word(values, 1))
}

// The shifts for m bytes, as far as a table for so many bytes reaches, and that of the whole: what the others are is not told.
fn tell_shifts(rt: &HostRuntime, values: &[u8]) {
    let print = print(values, 3);
    let m = word(values, 2);
    let last = levels(word(values, 1).min(MAX_LENGTH)) as usize;
    for (i, shift) in table(values).shifts(m).iter().enumerate() {
        if i <= last || i == levels(m) as usize {
            tell_power(rt, print, *shift);
        } else {
            tell_power(rt, print, Power::none());
        }
    }
}

// A fingerprint comes first in most calls of fingerprints, and others, a key or a power follow.
pub fn call(rt: &HostRuntime, op: u64, values: &[u8]) {
    let one = print(values, 0);
    match op {
        64 => tell_print(rt, one.push(key(values, 1), byte(values, 2))),
        65 => tell_print(
            rt,
            one.join(key(values, 1), print(values, 2), number(values, 3)),
        ),
        66 => tell_print(
            rt,
            one.cut(key(values, 1), print(values, 2), number(values, 3)),
        ),
        67 => tests(rt, one, print(values, 1)),
        68 => tell_power(rt, print(values, 2), power(values, 0, 1)),
        69 => tell_print(rt, Fingerprint::of_byte(byte(values, 0))),
        70 => tell_print(rt, one.join_by(print(values, 1), power(values, 2, 3))),
        71 => tell_print(
            rt,
            one.join_times(print(values, 1), power(values, 2, 3), word(values, 4)),
        ),
        72 => tell_print(rt, one.cut_by(print(values, 1), power(values, 2, 3))),
        73 => tell_power(
            rt,
            print(values, 4),
            power(values, 0, 1).times(power(values, 2, 3)),
        ),
        74 => tell_power(rt, print(values, 2), power(values, 0, 1).squared()),
        75 => tell_power(rt, print(values, 3), table(values).raise(word(values, 2))),
        76 => tell_shifts(rt, values),
        77 => tell_key(rt, table(values).key()),
        78 => key_tests(rt, key(values, 0), key(values, 1)),
        _ => {}
    }
}
