// Turns a Standard MIDI File of format 0 into passage bytes (document 02, A.2): the file comes from standard input, the lowest and the
// highest bell are the two arguments, and the strokes go to standard output. What is refused is said on standard error, by its number; so
// are, in words, a file that is too long, a read that fails, and strokes that cannot be written.
#![tactic(auto)]

ghost use Rattle.std.specs.Prelude.{◌≡◌};
ghost use Rattle.midi.specs.Outcome.{Turned};
ghost use Rattle.midi.specs.declared.Failure.TheVariants.{Refused};

use descriptor::Heard;
use midi_file::Bells;
use refusal::Refusal;
use std::io;

// How many bytes of the file were read, and how many strokes were written.
#[derive(Clone, Copy)]
struct Made {
    read: usize,
    written: usize,
}

// Why there are no strokes: a read failed; or the file is too long, of which so many bytes were read; or it is refused, of so many bytes; or the
// write failed. (`say` and `main` are as in `card`, but for their words and cases.)
#[derive(Clone, Copy)]
enum Failure {
    Unreadable,
    Overlong(usize),
    Refused(usize, Refusal),
    Unwritable,
}

// One byte more than the longest file, so that a longer one is seen.
const FILE_ROOM: usize = 3145729;

// The longest passage.
const STROKE_ROOM: usize = 1048576;

// The largest MIDI key.
const MOST_KEY: u8 = 127;

// Reads the file, and writes its strokes.
fn turn<R: io::Read, W: io::Write>(
    from: &mut R,
    to: &mut W,
    bells: Bells,
    file: &mut [u8; FILE_ROOM],
    out: &mut [u8; STROKE_ROOM],
) -> Result<Made, Failure>
    ensures { Turned bells file.new out.old out.new result }
{
    let Ok(read) = descriptor::fill(from, file) else {
        return Err(Failure::Unreadable);
    };
    if file.len() <= read {
        return Err(Failure::Overlong(read));
    }
    let count = match midi_file::read(&file[..read], bells, out) {
        Ok(count) => count,
        Err(refusal) => return Err(Failure::Refused(read, refusal)),
    };
    match descriptor::write(to, &out[..count]) {
        Ok(written) => Ok(Made { read, written }),
        Err(_) => Err(Failure::Unwritable),
    }
}

// Says on standard error why there are no strokes.
fn say(
    rt: &HostRuntime,
    failure: Failure,
    unread: Option<io::Error>,
    unwritten: Option<io::Error>,
) {
    match failure {
        Failure::Overlong(read) => {
            let longest = read.saturating_sub(1);
            let _ = eprintln!(rt; "midi: the file is longer than {longest} bytes");
        }
        Failure::Refused(_, refusal) => {
            let _ = refusal_line::say(&mut rt.stderr(), refusal.number());
        }
        Failure::Unreadable => descriptor::fail(rt, "midi: the file cannot be read", unread),
        Failure::Unwritable => descriptor::fail(
            rt,
            "midi: the strokes cannot be written",
            unwritten,
        ),
    }
}

// The MIDI key that a number is, if it is one.
fn key_of(number: u64) -> Option<u8> {
    u8::try_from(number).ok().filter(|key| *key <= MOST_KEY)
}

// The bells that the two arguments name.
fn bells_of(rt: &HostRuntime) -> Option<Bells> {
    let [lowest, highest] = argument::numbers::<_, 2>(rt)?;
    Some(Bells {
        lowest: key_of(lowest)?,
        highest: key_of(highest)?,
    })
}

// A clear word on the arguments.
fn complain(rt: &HostRuntime) {
    let _ = eprintln!(rt;
        "midi: two arguments are wanted, the lowest and the highest bell, MIDI keys from 0 to 127"
    );
}

fn main(rt: HostRuntime) {
    let Some(bells) = bells_of(&rt) else {
        complain(&rt);
        return;
    };
    let mut file = [0u8; FILE_ROOM];
    let mut out = [0u8; STROKE_ROOM];
    let mut from = Heard::new(rt.stdin());
    let mut to = Heard::new(rt.stdout());
    if let Err(failure) = turn(&mut from, &mut to, bells, &mut file, &mut out) {
        say(&rt, failure, from.error(), to.error());
    }
}
