// Makes a card (document 01, "Card" and "Records"): the passage comes from standard input, the key is the one argument, and the card record goes
// to standard output. What is refused is said on standard error, by its number; so are a read that fails, and then no card is written, and a card
// that cannot be written.
#![tactic(auto)]

ghost use Rattle.std.specs.Prelude.{◌≡◌, length};
ghost use Rattle.card_core.specs.Card.{overlong};
ghost use Rattle.card.specs.Outcome.{Carded};
ghost use Rattle.card.specs.declared.Failure.TheVariants.{Refused};

use card_core::{OVERLONG, key_of, write_card};
use descriptor::Heard;
use fingerprint::Key;
use refusal::Refusal;
use std::io;

// How many bytes of the passage were read, and how many of the card were written.
#[derive(Clone, Copy)]
struct Made {
    read: usize,
    written: usize,
}

// Why there is no card: a read failed; or the card of so many bytes is refused; or the write failed. (One type for `midi` too would have a case,
// a file that is too long, that is never given here; `say` and `main` are as there, but for their words and cases.)
#[derive(Clone, Copy)]
enum Failure {
    Unreadable,
    Refused(usize, Refusal),
    Unwritable,
}

// One byte more than the longest passage, so that a longer one is seen.
const PASSAGE_ROOM: usize = OVERLONG as usize;

// The room of a card's record.
const CARD_ROOM: usize = 4096;

// A clear word on the argument.
fn complain(rt: &HostRuntime) {
    let _ = eprintln!(rt;
        "card: one argument is wanted, the key, a decimal number of at most 10 digits"
    );
}

// Reads the passage, and writes its card.
fn make_card<R: io::Read, W: io::Write>(
    from: &mut R,
    to: &mut W,
    key: Key,
    passage: &mut [u8; PASSAGE_ROOM],
    out: &mut [u8; CARD_ROOM],
) -> Result<Made, Failure>
    ensures room { overlong ≡ length passage.new }
    ensures card { Carded key passage.new out.old out.new result }
{
    let Ok(read) = descriptor::fill(from, passage) else {
        return Err(Failure::Unreadable);
    };
    let used = match write_card(&passage[..read], key, out) {
        Ok(used) => used,
        Err(refusal) => return Err(Failure::Refused(read, refusal)),
    };
    match descriptor::write(to, &out[..used]) {
        Ok(written) => Ok(Made { read, written }),
        Err(_) => Err(Failure::Unwritable),
    }
}

// Says on standard error why there is no card.
fn say(
    rt: &HostRuntime,
    failure: Failure,
    unread: Option<io::Error>,
    unwritten: Option<io::Error>,
) {
    match failure {
        Failure::Refused(_, refusal) => {
            let _ = refusal_line::say(&mut rt.stderr(), refusal.number());
        }
        Failure::Unreadable => descriptor::fail(rt, "card: the passage cannot be read", unread),
        Failure::Unwritable => descriptor::fail(rt, "card: the card cannot be written", unwritten),
    }
}

// The key that the one argument names.
fn key_named(rt: &HostRuntime) -> Option<Key> {
    let [number] = argument::numbers::<_, 1>(rt)?;
    Some(key_of(number))
}

fn main(rt: HostRuntime) {
    let Some(key) = key_named(&rt) else {
        complain(&rt);
        return;
    };
    let mut passage = [0u8; PASSAGE_ROOM];
    let mut out = [0u8; CARD_ROOM];
    let mut from = Heard::new(rt.stdin());
    let mut to = Heard::new(rt.stdout());
    if let Err(failure) = make_card(&mut from, &mut to, key, &mut passage, &mut out) {
        say(&rt, failure, from.error(), to.error());
    }
}
