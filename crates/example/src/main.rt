// The library in use: a card is made from a passage, its watch takes bytes, is parked in the middle of the passage, resumed, and rings at the
// passage's last byte. Then a rack: two passages on one line. (README.md shows these lines.)
#![tactic(auto)]

use card_core::make;
use checkpoint_format::Format;
use checkpoint_restore::restore;
use checkpoint_save::save;
use fingerprint::Key;
use matcher::Matcher;
use rack::{Rack, Reports};
use refusal::Refusal;
use std::io;

// What ends the program early: a call that is refused, or a line that cannot be written.
#[derive(Drop)]
enum Failure {
    Refused(Refusal),
    Unwritten(io::Error),
}

impl From<Refusal> for Failure {
    fn from(refusal: Refusal) -> Self {
        Failure::Refused(refusal)
    }
}

impl From<io::Error> for Failure {
    fn from(error: io::Error) -> Self {
        Failure::Unwritten(error)
    }
}

// A ring at byte t.
fn say(rt: &HostRuntime, t: u64, ring: Option<u64>) -> io::Result<()> {
    if let Some(start) = ring {
        println!(rt; "{start} rings at byte {t}")?;
    }
    Ok(())
}

// The watch with these bytes taken; each ring is said.
fn take(rt: &HostRuntime, mut watch: Matcher, bytes: &[u8]) -> Result<Matcher, Failure> {
    for byte in bytes {
        let stroke = watch.stroke(*byte)?;
        watch = stroke.matcher;
        say(rt, watch.now.at, stroke.answer.ring)?;
    }
    Ok(watch)
}

// The rings of all names at byte t, by rising name.
fn say_all(rt: &HostRuntime, t: u64, reports: &Reports) -> io::Result<()> {
    for report in reports.all() {
        if report.answer.ring.is_some() {
            print!(rt; "name {}: ", report.name)?;
        }
        say(rt, t, report.answer.ring)?;
    }
    Ok(())
}

// The rack with these bytes taken.
fn take_all(rt: &HostRuntime, mut rack: Rack, bytes: &[u8]) -> Result<Rack, Failure> {
    for byte in bytes {
        let struck = rack.stroke(*byte)?;
        rack = struck.rack;
        say_all(rt, rack.now.at, &struck.reports)?;
    }
    Ok(rack)
}

// One passage: its watch is parked in the middle of it, and resumed.
fn one_passage(rt: &HostRuntime, key: Key) -> Result<(), Failure> {
    let card = make(b"ding dong ding ", key)?;
    let watch = take(rt, Matcher::start(card)?, b"dong ding dong d")?;
    let mut buffer = [0; 750];
    save(watch, Format::Wide, &mut buffer)?;
    let resumed = restore(card, &buffer)?.matcher;
    take(rt, resumed, b"ing dong ding ding dong")?;
    Ok(())
}

// Two passages on one line; the second is put in later, and is matched from there on.
fn two_passages(rt: &HostRuntime, key: Key) -> Result<(), Failure> {
    let one = Rack::begin(key)?.put_in(7, make(b"ding dong", key)?)?;
    let begun = take_all(rt, one, b"dong ding dong ")?;
    let two = begun.put_in(3, make(b"ng ding", key)?)?;
    take_all(rt, two, b"ding dong ding dong")?;
    Ok(())
}

fn run(rt: &HostRuntime) -> Result<(), Failure> {
    let key = Key::new(48271);
    one_passage(rt, key)?;
    two_passages(rt, key)
}

fn main(rt: HostRuntime) -> io::Result<()> {
    match run(&rt) {
        Ok(()) => Ok(()),
        Err(Failure::Refused(refusal)) => eprintln!(rt; "X {}", refusal.number()),
        Err(Failure::Unwritten(error)) => Err(error),
    }
}
