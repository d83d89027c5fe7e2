// The run of the printing program (document 01, "The printing program"): standard input is a card record and then the stream; the lines go to
// standard output. After each read, the lines of all bytes read are written before the next read. Where a read fails, or output cannot be
// written, no last line is written.
#![tactic(auto)]

ghost use Rattle.std.specs.Prelude.{◌≤◌, ◌+◌, ◌*◌, ◌<◌, ◌≡◌, true, false, length};
ghost use Rattle.report_core.specs.Output.{card_bytes};
ghost use Rattle.stage.specs.Stage.{max_taken};
ghost use Rattle.report_loop.specs.State.{buffer_size, Sound, Sends, Passed, Ready, Turned, Fronted, Opened, Stands, Ends, Closed, Over};

use matcher::Matcher;
use refusal::Verdict;
use report_core::{CARD_BYTES, Progress, begin, feed, finish};
use std::io;

// The bytes of the buffer for the input, and of that for the output.
const BUFFER: usize = 65536;

// How many bytes were read and written in all.
#[derive(Clone, Copy, PartialEq, Eq, Debug)]
pub struct Counts {
    pub read: u64,
    pub written: u64,
}

// Why a run came to no end: a read failed, behind so many bytes read and written; or output could not be written.
#[derive(Clone, Copy, PartialEq, Eq, Debug)]
pub enum Failure {
    Unreadable(Counts),
    Unwritable,
}

// How far the run has come: what was refused, if something was; how many bytes were read and written; and whether more is to be read.
// (A verdict stands beside the rest: a refusal ends the run, but `last_lines` says t and the total with it; and `more` is false at the input's
// end too.)
#[derive(Clone, Copy)]
struct State {
    progress: Progress,
    verdict: Verdict,
    counts: Counts,
    more: bool,
}

// Writes lines, and hands back how many bytes were written with them in all.
fn put<W: io::Write>(to: &mut W, lines: &[u8], written: u64) -> Result<u64, Failure>
    requires { written + length lines.now < 18446744073709551616 }
    ensures { Sends written lines.now result }
{
    let count = descriptor::write(to, lines).map_err(|_| Failure::Unwritable)?;
    Ok(written + (count as u64))
}

// Writes the lines that the bytes of a chunk bring, as many at a time as the buffer holds.
fn pass<W: io::Write>(
    to: &mut W,
    s: State,
    chunk: &[u8],
    out: &mut [u8; BUFFER],
) -> Result<State, Failure>
    requires { Sound s.progress s.counts.written }
    ensures { Passed s chunk.now result }
{
    let mut progress = s.progress;
    let mut next: usize = 0;
    let mut written = s.counts.written;
    while next < chunk.len() {
        let fed = feed(progress, &chunk[next..], out);
        written = put(to, &out[..fed.used], written)?;
        progress = fed.progress;
        next += fed.taken;
        if fed.verdict.is_err() {
            return Ok(State {
                progress,
                verdict: fed.verdict,
                counts: Counts {
                    written,
                    ..s.counts
                },
                more: false,
            });
        }
    }
    Ok(State {
        progress,
        verdict: Ok(()),
        counts: Counts {
            written,
            ..s.counts
        },
        more: s.more,
    })
}

// Reads the bytes on which the card is judged, or all of the input if that is less.
fn read_front<R: io::Read>(from: &mut R, input: &mut [u8; BUFFER]) -> Result<usize, Failure>
    ensures { Fronted input.new result }
{
    descriptor::fill(from, &mut input[..CARD_BYTES]).map_err(|failed| {
        Failure::Unreadable(Counts {
            read: failed.count as u64,
            written: 0,
        })
    })
}

// Reads the card, on the bytes on which it is judged, and writes what those behind it bring. No more is read of an input that is shorter.
fn open<W: io::Write>(to: &mut W, front: &[u8], out: &mut [u8; BUFFER]) -> Result<State, Failure>
    requires { length front.now ≤ card_bytes }
    ensures { Opened front.now result }
{
    let counts = Counts {
        read: front.len() as u64,
        written: 0,
    };
    match begin(front) {
        Ok(begun) => {
            let s = State {
                progress: begun.progress,
                verdict: Ok(()),
                counts,
                more: CARD_BYTES <= front.len(),
            };
            pass(to, s, &front[begun.taken..], out)
        }
        Err(refusal) => Ok(State {
            progress: Progress {
                matcher: Matcher::none(),
                total: 0,
            },
            verdict: Err(refusal),
            counts,
            more: false,
        }),
    }
}

// Reads the next chunk, and writes what it brings. There are none behind an empty one. (Reader, writer and both buffers go through three functions:
// a struct of four loans would be lent anew at each call, and be no plainer.)
fn turn<R: io::Read, W: io::Write>(
    from: &mut R,
    to: &mut W,
    s: State,
    input: &mut [u8; BUFFER],
    out: &mut [u8; BUFFER],
) -> Result<State, Failure>
    requires { Ready s }
    ensures { Turned s input.new result }
{
    let n = descriptor::read(from, input).map_err(|_| Failure::Unreadable(s.counts))?;
    let read = s.counts.read + (n as u64);
    let next = State {
        counts: Counts { read, ..s.counts },
        more: 0 < n,
        ..s
    };
    pass(to, next, &input[..n], out)
}

// Reads chunk after chunk. It ends, since each chunk brings t nearer to its limit.
fn read_on<R: io::Read, W: io::Write>(
    from: &mut R,
    to: &mut W,
    first: State,
    input: &mut [u8; BUFFER],
    out: &mut [u8; BUFFER],
) -> Result<State, Failure>
    requires { Stands first }
    ensures { Ends result }
{
    let mut s = first;
    while s.more {
        s = turn(from, to, s, input, out)?;
    }
    Ok(s)
}

// Writes the last lines, once no more is to be read.
fn close<W: io::Write>(to: &mut W, s: State, out: &mut [u8; BUFFER]) -> Result<Counts, Failure>
    requires { (s.counts.written ≤ buffer_size * max_taken) × (s.more ≡ false) }
    ensures { Closed s result }
{
    let Some(end) = finish(s.verdict, s.progress.matcher.now.at, s.progress.total, out) else {
        return Err(Failure::Unwritable);
    };
    let written = put(to, &out[..end], s.counts.written)?;
    Ok(Counts {
        written,
        ..s.counts
    })
}

// The card, the stream chunk by chunk, and the last lines.
pub fn run<R: io::Read, W: io::Write>(from: &mut R, to: &mut W) -> Result<Counts, Failure>
    ensures { Over result }
{
    let mut input = [0u8; BUFFER];
    let mut out = [0u8; BUFFER];
    let n = read_front(from, &mut input)?;
    let opened = open(to, &input[..n], &mut out)?;
    let s = read_on(from, to, opened, &mut input, &mut out)?;
    close(to, s, &mut out)
}
