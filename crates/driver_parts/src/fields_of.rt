// The parts of records: fields, heads, sizes. A place and what is put there stand before the buffer, the last value.
// (The input says which call is made, by its number: a `match` on it says so most plainly.)
use checkpoint_format::{Format, checkpoint_size};
use driver_answers::numbers::{
    option_numbers, tell, tell_all, tell_buffer, tell_size, tell_verdict, tell_whether, tell_word,
};
use driver_answers::values::{tell_key, tell_print};
use driver_input::{LENT, buffer, flag, from, lend, number, word};
use driver_values::cards::{key, print};
use fields::{Width, field_at, number_at};
use record::{check_head, key_at, print_at, put_head, put_key, put_print, put_word, word_at};

// The width of 2 or 4 bytes, else that of 8. (No TryFrom: every other number has a meaning here.)
fn width(n: u64) -> Width {
    match n {
        2 => Width::Half,
        4 => Width::Word,
        _ => Width::Double,
    }
}

// Lends a call the buffer at the front of `rest`, and tells how it is then.
fn tell_altered<F: FnOnce(&mut [u8])>(rt: &HostRuntime, rest: &[u8], alter: F)
    requires { F.IsAlwaysCallable alter }
{
    let mut room = [0u8; LENT];
    let lent = lend(rest, &mut room);
    alter(lent);
    tell_buffer(rt, lent);
}

fn sizes(rt: &HostRuntime, wide: bool, t: u64, k: u32) {
    let format = if wide { Format::Wide } else { Format::Narrow };
    tell_size(rt, format.width().bytes());
    tell(rt, format.kind());
    tell(rt, format.least());
    tell_whether(rt, format.can_say(t));
    tell_size(rt, format.mark_size());
    tell_size(rt, format.stage_size());
    tell_size(rt, format.stages_at());
    tell_size(rt, checkpoint_size(format, k));
}

// A field's place and width stand before the buffer; so do the kind and the least length that a head is to have. Three numbers stand before a buffer
// that a field is put into, two before another that is altered.
pub fn call(rt: &HostRuntime, op: u64, values: &[u8]) {
    let first = number(values, 0);
    let second = number(values, 1);
    let at = first as usize;
    let rest = from(values, 2);
    let bytes = buffer(rest);
    match op {
        96 => tell_all(rt, &option_numbers(field_at(bytes, at, width(second)))),
        97 => tell(rt, number_at(bytes, at, width(second))),
        98 => tell_altered(rt, from(values, 3), |lent| {
            fields::put(lent, at, width(second), number(values, 2))
        }),
        99 => tell_word(rt, word_at(buffer(from(values, 1)), at)),
        100 => tell_altered(rt, rest, |lent| put_word(lent, at, word(values, 1))),
        101 => tell_key(rt, key_at(buffer(from(values, 1)), at)),
        102 => tell_altered(rt, rest, |lent| put_key(lent, at, key(values, 1))),
        103 => tell_print(rt, print_at(buffer(from(values, 1)), at)),
        104 => tell_altered(rt, rest, |lent| put_print(lent, at, print(values, 1))),
        105 => tell_altered(rt, rest, |lent| put_head(lent, word(values, 0), second)),
        106 => tell_verdict(rt, &check_head(bytes, first, second)),
        107 => sizes(rt, flag(values, 0), second, word(values, 2)),
        _ => {}
    }
}
