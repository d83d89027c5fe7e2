// The maker's calls, cards from records, and the lengths of tested beginnings. The values of a call stand one behind another.
// (The input says which call is made, by its number: a `match` on it says so most plainly.)
use crate::records;
use card_core::{key_of, make};
use card_record::{SignatureRead, read_signature};
use driver_answers::numbers::{tell_size, tell_verdict, tell_whether, tell_word};
use driver_answers::values::{tell_builder, tell_card, tell_key};
use driver_input::{buffer, byte, number, past_buffer, word};
use driver_values::cards::{BUILDER, builder, card, key, print};
use refusal::Refusal;
use signature::{Builder, Signature, levels, prefix_length, running_fits};

// A half-made card, or the one that holds nothing, which is read from no numbers. (A verdict and a value: each value has its own words and its
// own nothing, so one function for all would need a trait over each.)
fn tell_begun(rt: &HostRuntime, begun: Result<Builder, Refusal>) {
    tell_verdict(rt, &begun);
    tell_builder(rt, begun.unwrap_or(builder(&[])));
}

fn push(rt: &HostRuntime, half_made: Builder, byte: u8) {
    let mut builder = half_made;
    let verdict = builder.push(byte);
    tell_verdict(rt, &verdict);
    tell_builder(rt, builder);
}

fn tell_made(rt: &HostRuntime, made: Result<Signature, Refusal>) {
    tell_verdict(rt, &made);
    tell_card(rt, made.unwrap_or(Signature::none()));
}

fn tell_read(rt: &HostRuntime, read: Result<SignatureRead, Refusal>) {
    tell_verdict(rt, &read);
    let card = read.unwrap_or(SignatureRead {
        signature: Signature::none(),
        taken: 0,
    });
    tell_size(rt, card.taken);
    tell_card(rt, card.signature);
}

pub fn call(rt: &HostRuntime, op: u64, values: &[u8]) {
    match op {
        1 => tell_begun(rt, Builder::begin(word(values, 0), key(values, 1))),
        2 => push(rt, builder(values), byte(values, BUILDER)),
        3 => tell_made(rt, builder(values).finish()),
        5 => tell_read(rt, read_signature(buffer(values))),
        6 => tell_made(rt, make(buffer(values), key(past_buffer(values), 0))),
        8 => tell_whether(rt, builder(values).fits()),
        9 => tell_whether(rt, card(values).fits()),
        10 => tell_word(rt, levels(word(values, 0))),
        11 => tell_word(rt, prefix_length(word(values, 0), word(values, 1))),
        12 => tell_whether(rt, running_fits(number(values, 0), print(values, 1))),
        13 => tell_key(rt, key_of(number(values, 0))),
        4 | 7 => records::call(rt, op, values),
        _ => {}
    }
}
