// The arguments of a program that takes numbers alone.
#![tactic(auto)]

ghost use Rattle.std.specs.Prelude.{◌^◌, ◌<◌, IfSome};
ghost use Rattle.std.specs.List.{All};
ghost use Rattle.decimal.specs.Decimal.{most_read};

use std::env::{Env, FillError};

// Room for an argument: more than the digits that are read, so that a longer one is seen.
const ROOM: usize = 16;

// Whether there is no argument at a place.
fn is_absent<E: Env>(env: &E, i: usize) -> bool {
    let mut text = [0u8; ROOM];
    matches!(env.arg(i, &mut text), Err(FillError::NotPresent))
}

// The number that the argument at a place says, if it says one: one that the room does not hold says none.
fn number_at<E: Env>(env: &E, i: usize) -> Option<u64>
    ensures { IfSome result (λ n. n < 10 ^ most_read) }
{
    let mut text = [0u8; ROOM];
    let count = env.arg(i, &mut text).ok()?;
    decimal::parse(&text[..count])
}

// The numbers that the arguments say, if there are so many and no more, and each says one.
pub fn numbers<E: Env, const N: usize>(env: &E) -> Option<[u64; N]>
    ensures { IfSome result (λ numbers. All (λ n. n < 10 ^ most_read) numbers) }
{
    if !is_absent(env, N + 1) {
        return None;
    }
    let mut numbers = [0u64; N];
    for (i, number) in numbers.iter_mut().enumerate() {
        *number = number_at(env, i + 1)?;
    }
    Some(numbers)
}
