// Answers: numbers, buffers and lists on standard output.
ghost use Rattle.std.specs.Prelude.{◌≡◌, [], ◌∷◌, MatchOption};

use driver_input::until;
use fields::Width;
use refusal::{Refusal, number_of};

// The most numbers that are written at once.
const FEW: usize = 32;

// Answers with numbers, one behind another.
pub fn tell_all(rt: &HostRuntime, numbers: &[u64]) {
    for few in numbers.chunks(FEW) {
        let mut out = [0u8; 8 * FEW];
        for (i, number) in few.iter().enumerate() {
            fields::put(&mut out, 8 * i, Width::Double, *number);
        }
        let _ = descriptor::write(&mut rt.stdout(), until(&out, 8 * few.len()));
    }
}

pub fn tell(rt: &HostRuntime, n: u64) {
    tell_all(rt, &[n]);
}

pub fn tell_word(rt: &HostRuntime, n: u32) {
    tell(rt, n as u64);
}

pub fn tell_size(rt: &HostRuntime, n: usize) {
    tell(rt, n as u64);
}

// 1 for yes, 0 for no.
pub fn tell_whether(rt: &HostRuntime, ok: bool) {
    tell(rt, ok as u64);
}

// The number of a call's refusal, 0 where it was accepted.
pub fn tell_verdict<T>(rt: &HostRuntime, outcome: &Result<T, Refusal>) {
    tell_word(rt, number_of(outcome));
}

// What is told of a number that may be missing: 1 and the number, or twice 0.
pub fn option_numbers(number: Option<u64>) -> [u64; 2]
    ensures { MatchOption number (result ≡ 0 ∷ 0 ∷ []) (λ n. result ≡ 1 ∷ n ∷ []) }
{
    match number {
        Some(n) => [1, n],
        None => [0, 0],
    }
}

pub fn tell_buffer(rt: &HostRuntime, bytes: &[u8]) {
    tell_size(rt, bytes.len());
    let _ = descriptor::write(&mut rt.stdout(), bytes);
}

pub fn tell_list(rt: &HostRuntime, numbers: &[u64]) {
    tell_size(rt, numbers.len());
    tell_all(rt, numbers);
}
