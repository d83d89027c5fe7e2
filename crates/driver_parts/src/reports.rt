// The printing program's steps and lines, and decimal numbers. A buffer that is written into is the last value.
// (The input says which call is made, by its number: a `match` on it says so most plainly.)
use driver_answers::numbers::{
    option_numbers, tell, tell_all, tell_buffer, tell_size, tell_verdict, tell_whether,
};
use driver_answers::values::tell_watch;
use driver_input::{
    LENT, LIST, buffer, from, lend, lend_list, number, past_buffer, past_list, word,
};
use driver_values::watches::{AND_ONE, WATCH, watch};
use matcher::Matcher;
use refusal::{Refusal, Verdict};
use report_core::{Begun, Fed, Progress};

fn tell_progress(rt: &HostRuntime, progress: Progress) {
    tell(rt, progress.total);
    tell_watch(rt, progress.matcher);
}

fn tell_begun(rt: &HostRuntime, outcome: Result<Begun, Refusal>) {
    tell_verdict(rt, &outcome);
    let begun = outcome.unwrap_or(Begun {
        progress: Progress {
            matcher: Matcher::none(),
            total: 0,
        },
        taken: 0,
    });
    tell_size(rt, begun.taken);
    tell_progress(rt, begun.progress);
}

fn tell_fed(rt: &HostRuntime, fed: Fed, lent: &[u8]) {
    tell_verdict(rt, &fed.verdict);
    tell_size(rt, fed.taken);
    tell_size(rt, fed.used);
    tell_progress(rt, fed.progress);
    tell_buffer(rt, lent);
}

fn progress(values: &[u8]) -> Progress {
    Progress {
        matcher: watch(values),
        total: number(values, WATCH),
    }
}

fn feed(rt: &HostRuntime, values: &[u8]) {
    let mut room = [0u8; LENT];
    let stream = from(values, AND_ONE);
    let lent = lend(past_buffer(stream), &mut room);
    let fed = report_core::feed(progress(values), buffer(stream), lent);
    tell_fed(rt, fed, lent);
}

fn put_decimal(rt: &HostRuntime, values: &[u8]) {
    let mut room = [0u8; LENT];
    let lent = lend(from(values, 2), &mut room);
    let at = number(values, 0) as usize;
    tell_size(rt, decimal::put(lent, at, number(values, 1)));
    tell_buffer(rt, lent);
}

// The refusal of a number; acceptance for a number that no refusal has. (No TryFrom: every other number has a meaning here.)
fn verdict(n: u64) -> Verdict {
    match n {
        1 => Err(Refusal::Empty),
        2 => Err(Refusal::Overlong),
        3 => Err(Refusal::Key),
        4 => Err(Refusal::Unfinished),
        5 => Err(Refusal::Surplus),
        6 => Err(Refusal::Spent),
        7 => Err(Refusal::NoSpace),
        8 => Err(Refusal::Short),
        9 => Err(Refusal::Kind),
        10 => Err(Refusal::Misfit),
        11 => Err(Refusal::OtherPassage),
        12 => Err(Refusal::Full),
        13 => Err(Refusal::NameTaken),
        14 => Err(Refusal::NameAbsent),
        15 => Err(Refusal::NoTrack),
        16 => Err(Refusal::Broken),
        17 => Err(Refusal::OutsideBells),
        18 => Err(Refusal::TooWide),
        _ => Ok(()),
    }
}

// Lends a call the buffer at the front of `rest`, and tells 1 and the place behind what was put, or twice 0 where there was no room.
fn tell_put<F: FnOnce(&mut [u8]) -> Option<usize>>(rt: &HostRuntime, rest: &[u8], put: F)
    requires { F.IsAlwaysCallable put }
{
    let mut room = [0u8; LENT];
    let lent = lend(rest, &mut room);
    let behind = put(lent);
    tell_all(rt, &option_numbers(behind.map(|next| next as u64)));
    tell_buffer(rt, lent);
}

// The lines of a list of notes, which stands before the buffer.
fn lines(rt: &HostRuntime, values: &[u8]) {
    let mut numbers = [0u64; LIST];
    let at = number(values, 0) as usize;
    let list = from(values, 1);
    let notes = lend_list(list, &mut numbers);
    tell_put(
        rt,
        past_list(list),
        |lent| report_lines::put_notes(lent, at, notes),
    );
}

// Three numbers stand before the buffer of a line, or two at a refusal.
pub fn call(rt: &HostRuntime, op: u64, values: &[u8]) {
    let first = number(values, 0);
    let second = number(values, 1);
    let third = number(values, 2);
    let at = first as usize;
    match op {
        49 => tell_all(rt, &option_numbers(decimal::parse(buffer(values)))),
        50 => put_decimal(rt, values),
        56 => tell_begun(rt, report_core::begin(buffer(values))),
        57 => feed(rt, values),
        58 => tell_whether(rt, progress(values).fits()),
        59 => tell_put(rt, from(values, 3), |lent| {
            report_core::finish(verdict(first), second, third, lent)
        }),
        60 => lines(rt, values),
        61 => tell_put(rt, from(values, 2), |lent| {
            report_lines::put_refusal(lent, at, word(values, 1))
        }),
        62 => tell_put(rt, from(values, 3), |lent| {
            report_lines::put_end(lent, at, second, third)
        }),
        _ => {}
    }
}
