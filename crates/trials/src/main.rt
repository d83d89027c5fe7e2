// The trials: the compiled library against a search that knows nothing of it (crate `naive_search`). Standard input brings cases: a key, the
// lengths of a pattern and of a stream, 4 bytes each and little-endian, and the bytes of both. Each stream is taken several times over, cut in
// other places by parking and resuming. What is printed are counts of what was tried, and of the checks that failed. differential/trials.py
// writes the cases and works out what must be printed.
#![tactic(auto)]

ghost use Rattle.std.specs.Prelude.{◌<◌, length, IfSome};

use crate::account::Case;
use driver_input::until;
use record::word_at;
use std::io;

mod account; // account.rt: an answer, held against demand 3
mod passes; // passes.rt: a stream, cut in one place after another
mod tally; // tally.rt: counters and a digest

// The most bytes of all cases.
const ROOM: usize = 1048576;

// What stands before a case's pattern, and the most bytes that pattern and stream may have.
const HEAD: usize = 12;

const LONGEST_PATTERN: usize = 4096;

const LONGEST_STREAM: usize = 9000;

// The case at the front, and what stands behind it; none where it is cut short or too long.
fn next_case<'a>(input: &'a [u8]) -> Option<(Case<'a>, &'a [u8])>
    ensures { IfSome result (λ r. length r.1.now < length input.now) }
{
    let m = word_at(input, 4) as usize;
    let n = word_at(input, 8) as usize;
    if LONGEST_PATTERN < m || LONGEST_STREAM < n || input.len() < HEAD + m + n {
        return None;
    }
    let (pattern, rest) = input[HEAD..].split_at(m);
    let (stream, behind) = rest.split_at(n);
    let key = word_at(input, 0);
    Some((
        Case {
            pattern,
            stream,
            key,
        },
        behind,
    ))
}

// Tries a case, prints its line and hands back the failures.
fn try_case(rt: &HostRuntime, case: Case) -> io::Result<u32> {
    let tally = passes::all(case);
    print!(rt; "{} {}", case.pattern.len(), case.stream.len())?;
    tally.print(rt)?;
    Ok(tally.failures)
}

// Case after case; hands back the failures. A case that is cut short or too long is one, and the last.
fn run(rt: &HostRuntime, input: &[u8]) -> io::Result<u32> {
    let mut failures: u32 = 0;
    let mut left = input;
    while !left.is_empty() {
        let Some((case, behind)) = next_case(left) else {
            println!(rt; "a case is cut short or too long")?;
            return Ok(failures.wrapping_add(1));
        };
        failures = failures.wrapping_add(try_case(rt, case)?);
        left = behind;
    }
    Ok(failures)
}

// Reads the cases and tries them. (What comes is read as in the other programs: three lines, in crates of their own.)
fn serve(rt: &HostRuntime, room: &mut [u8; ROOM]) -> io::Result<()> {
    println!(rt;
        "pattern stream passes cuts occurrences missed rings false sets aside comparisons digest failures"
    )?;
    let count = descriptor::fill(&mut rt.stdin(), room).unwrap_or_else(|failed| failed.count);
    let failures = run(rt, until(room, count))?;
    println!(rt; "failures {failures}")
}

fn main(rt: HostRuntime) -> io::Result<()> {
    let mut room = [0u8; ROOM];
    serve(&rt, &mut room)
}
