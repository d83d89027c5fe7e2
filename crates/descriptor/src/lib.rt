// Reading from a reader, with a read that failed told apart from the end of the input, and writing to a writer. No contract can say which bytes a
// read of standard input brings, or what a write does: for the input and output of `report` and `card` these functions alone call the library's own
// (docs/DECISIONS.md, "Read and write").
#![tactic(auto)]

ghost use Rattle.descriptor.specs.Reads.{Reads, ReadOnce, Writes};

mod heard;

pub use heard::{Heard, fail};
use std::io;

// A read or a write that failed, and how many bytes were read before it (`ReadOnce` and `Writes` say 0; `fill` alone counts).
#[derive(Clone, Copy, PartialEq, Eq, Debug)]
pub struct Failed {
    pub count: usize,
}

// Reads once, to the buffer's front: how many bytes, none at the end of the input.
pub fn read<R: io::Read>(from: &mut R, buf: &mut [u8]) -> Result<usize, Failed>
    ensures { ReadOnce result buf.new }
{
    match from.read(buf) {
        Ok(count) => Ok(count),
        Err(_) => Err(Failed { count: 0 }),
    }
}

// Reads until the buffer is full, the input ends or a read fails: how many bytes were read, to the buffer's front.
pub fn fill<R: io::Read>(from: &mut R, buf: &mut [u8]) -> Result<usize, Failed>
    ensures { Reads result buf.new }
{
    let mut count: usize = 0;
    while count < buf.len() {
        match read(from, &mut buf[count..]) {
            Ok(0) => break,
            Ok(more) => count += more,
            Err(_) => return Err(Failed { count }),
        }
    }
    Ok(count)
}

// Writes all of the bytes: how many those are, and none that count where a write failed.
pub fn write<W: io::Write>(to: &mut W, bytes: &[u8]) -> Result<usize, Failed>
    ensures { Writes result bytes.now }
{
    match to.write_all(bytes) {
        Ok(()) => Ok(bytes.len()),
        Err(_) => Err(Failed { count: 0 }),
    }
}
