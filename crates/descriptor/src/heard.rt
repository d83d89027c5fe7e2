// What a read or a write that failed said of it, for the line that a program writes on standard error.
ghost use Rattle.std.specs.Prelude.{◌≡◌, OnOk, None};
ghost use Rattle.descriptor.specs.Heard.{heard_inner, heard_error, KeepsError};
ghost use Rattle.std.specs.Io.{ReadsAtMost, WritesAtMost};
ghost use Rattle.std.specs.Io.KnownBytes.{Appends, Keeps, ReadConsumes, WriteAppends};

use std::io;

// A reader or a writer, and the error of its last call that failed.
#[derive(Drop)]
pub struct Heard<T> {
    inner: T,
    error: Option<io::Error>,
}

impl<T> Heard<T> {
    pub fn new(inner: T) -> Heard<T>
        ensures inner { heard_inner result ≡ inner }
        ensures error { heard_error result ≡ None }
    {
        Heard { inner, error: None }
    }

    // What a call said, with its error kept if it failed.
    fn keep<V>(&mut self, done: io::Result<V>) -> io::Result<V>
        ensures same { result ≡ done }
        ensures inner { heard_inner self.new ≡ heard_inner self.old }
        ensures error { KeepsError self.old self.new result }
    {
        if let Err(e) = &done {
            self.error = Some(*e);
        }
        done
    }

    // The last error, if a call failed.
    pub fn error(&self) -> Option<io::Error>
        ensures { result ≡ heard_error self.now }
    {
        self.error
    }
}

impl<R: io::Read> io::Read for Heard<R> {
    ghost remaining = { λ s. R.remaining (heard_inner s) };

    fn read(&mut self, buf: &mut [u8]) -> io::Result<usize>
        ensures bound { ReadsAtMost result buf.new }
        ensures bytes { ReadConsumes (R.remaining (heard_inner self.old)) (R.remaining (heard_inner self.new)) result buf.new }
        ensures error { KeepsError self.old self.new result }
    {
        let read = self.inner.read(buf);
        self.keep(read)
    }
}

impl<W: io::Write> io::Write for Heard<W> {
    ghost contents = { λ s. W.contents (heard_inner s) };

    fn write(&mut self, bytes: &[u8]) -> io::Result<usize>
        ensures bound { WritesAtMost result bytes.now }
        ensures bytes { WriteAppends (W.contents (heard_inner self.old)) (W.contents (heard_inner self.new)) result bytes.now }
        ensures error { KeepsError self.old self.new result }
    {
        let written = self.inner.write(bytes);
        self.keep(written)
    }

    fn flush(&mut self) -> io::Result<()>
        ensures bytes { Keeps (W.contents (heard_inner self.old)) (W.contents (heard_inner self.new)) }
        ensures error { KeepsError self.old self.new result }
    {
        let flushed = self.inner.flush();
        self.keep(flushed)
    }

    fn write_all(&mut self, bytes: &[u8]) -> io::Result<()>
        ensures bytes { OnOk result (Appends (W.contents (heard_inner self.old)) (W.contents (heard_inner self.new)) bytes.now) }
        ensures error { KeepsError self.old self.new result }
    {
        let written = self.inner.write_all(bytes);
        self.keep(written)
    }
}

// Says on standard error what failed, and the error behind it. Where that cannot be said, there is nowhere left to say it.
pub fn fail<P: io::Eprint>(rt: &P, words: &str, error: Option<io::Error>) {
    let _ = match error {
        Some(e) => rt.eprintln(format_args!("{words}: {e}")),
        None => rt.eprintln(words),
    };
}
