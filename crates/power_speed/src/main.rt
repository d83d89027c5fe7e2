// Powers of keys, for measuring (differential/bench) and beside another program's (differential/gate). Standard input is a list of up to
// 4,096 cases of 16 bytes: a key r in 4 bytes, an exponent n in 8 and a number of turns in 4, the low byte first in each. For each case
// a line has what r is in the end: each turn makes it r to the n and 1 more, modulo p, as one join does with the fingerprint 1 twice.
#![tactic(auto)]

use fields::Width;
use fingerprint::{Fingerprint, Key};
use std::io;

// The most bytes of all cases.
const ROOM: usize = 65536;

// How many bytes a case has.
const CASE: usize = 16;

// The number in 4 bytes. (As `record::word_at`: another crate for one line would be no plainer.)
fn word(case: &[u8], at: usize) -> u32 {
    fields::number_at(case, at, Width::Word) as u32
}

// What a key is after so many turns.
fn turned(r: u32, n: u64, turns: u32) -> u32 {
    let one = Fingerprint::of_number(1);
    let mut key = Key::new(r);
    for _ in 0..turns {
        key = Key::new(one.join(key, one, n).number());
    }
    key.number()
}

// The line of a case.
fn say(rt: &HostRuntime, case: &[u8]) -> io::Result<()> {
    let low = word(case, 4) as u64;
    let high = word(case, 8) as u64;
    let result = turned(word(case, 0), low + high * 4294967296, word(case, 12));
    println!(rt; "{result}")
}

// The lines of all cases that are whole.
fn say_all(rt: &HostRuntime, cases: &[u8]) -> io::Result<()> {
    for case in cases.chunks_exact(CASE) {
        say(rt, case)?;
    }
    Ok(())
}

fn main(rt: HostRuntime) -> io::Result<()> {
    let mut input = [0u8; ROOM];
    let count = match descriptor::fill(&mut rt.stdin(), &mut input) {
        Ok(count) => count,
        Err(failed) => failed.count,
    };
    say_all(&rt, &input[..count])
}
