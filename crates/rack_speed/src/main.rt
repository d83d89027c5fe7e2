// A rack beside as many lone watches, for measuring (differential/bench): the same cards and stream bring the same line of sums. Standard
// input is `w` for the watches or `r` for the rack, one byte that is the number of cards, their records one behind another, and the stream.
// The line has the numbers of bytes, comparisons and rings, and the sum of the rung starts; it is empty where the cards cannot be read.
#![tactic(auto)]

use card_record::read_signature;
use fingerprint::Key;
use matcher::Matcher;
use rack::{CARDS, Rack, Reports};
use signature::Signature;
use std::io;

// The key of a rack with no card.
const ANY_KEY: u32 = 48271;

// Names fall from this one on, so that the reports, by rising name, come in another order than the places.
const TOP_NAME: u16 = 100;

// Rung starts are added up modulo this number.
const MODULUS: u64 = 1000003;

// The bytes of a chunk of the input, and as many chunks as hold more than a stream may.
const CHUNK: usize = 65536;

const CHUNKS: u32 = 16777217;

// What the stream goes through.
#[derive(Clone, Copy)]
enum Way {
    Watches,
    Rack,
}

// What stands before the stream: what it goes through, and the cards, as many as `many` says (an array, since no memory is asked for).
#[derive(Clone, Copy)]
struct Front {
    way: Way,
    cards: [Signature; CARDS],
    many: usize,
}

// Bytes, comparisons, rings and rung starts of all strokes so far.
#[derive(Clone, Copy)]
struct Sums {
    bytes: u64,
    comparisons: u64,
    rings: u64,
    starts: u64,
}

// The watches and the rack (arrays, since no memory is asked for); which of them the stream goes through; and what it has come to.
#[derive(Clone, Copy)]
struct Run {
    way: Way,
    many: usize,
    watches: [Matcher; CARDS],
    rack: Rack,
    sums: Sums,
}

// Reads what stands before the stream, if it can be read, and what stands behind it. A byte that is missing is 0.
fn read_front(input: &[u8]) -> Option<(Front, &[u8])> {
    let way = match input.first()? {
        b'w' => Way::Watches,
        b'r' => Way::Rack,
        _ => return None,
    };
    let many = input.get(1).copied().unwrap_or(0) as usize;
    if CARDS < many {
        return None;
    }
    let mut cards = [Signature::none(); CARDS];
    let mut rest = input.get(2..).unwrap_or(&[]);
    for card in cards.iter_mut().take(many) {
        let read = read_signature(rest).ok()?;
        *card = read.signature;
        rest = rest.get(read.taken..)?;
    }
    let front = Front { way, cards, many };
    Some((front, rest))
}

impl Front {
    // A fresh watch of each card.
    fn watches(&self) -> [Matcher; CARDS] {
        let mut watches = [Matcher::none(); CARDS];
        for (watch, card) in watches.iter_mut().zip(self.cards) {
            *watch = Matcher::start(card).unwrap_or(Matcher::none());
        }
        watches
    }

    // The cards' key.
    fn key(&self) -> Key {
        if self.many == 0 {
            Key::new(ANY_KEY)
        } else {
            self.cards[0].key
        }
    }

    // A rack with the cards in it.
    fn rack(&self) -> Option<Rack> {
        let mut rack = Rack::begin(self.key()).ok()?;
        for (i, card) in self.cards.iter().enumerate().take(self.many) {
            if let Ok(more) = rack.put_in(TOP_NAME - i as u16, *card) {
                rack = more;
            }
        }
        Some(rack)
    }
}

impl Sums {
    fn add_comparisons(&mut self, n: u32) {
        self.comparisons = self.comparisons.wrapping_add(u64::from(n));
    }

    fn add_ring(&mut self, ring: Option<u64>) {
        if let Some(start) = ring {
            self.rings = self.rings.wrapping_add(1);
            self.starts = (self.starts % MODULUS + start % MODULUS) % MODULUS;
        }
    }

    // What the reports of one byte add.
    fn add_reports(&mut self, reports: &Reports) {
        self.add_comparisons(reports.comparisons);
        for report in reports.all() {
            self.add_ring(report.answer.ring);
        }
    }
}

impl Run {
    // The run before the stream's first byte.
    fn begin(front: &Front) -> Option<Run> {
        Some(Run {
            way: front.way,
            many: front.many,
            watches: front.watches(),
            rack: front.rack()?,
            sums: Sums {
                bytes: 0,
                comparisons: 0,
                rings: 0,
                starts: 0,
            },
        })
    }

    // The byte goes through the first watch, the second and so on.
    fn through_watches(&mut self, byte: u8) {
        for watch in self.watches.iter_mut().take(self.many) {
            if let Ok(stroke) = &watch.stroke(byte) {
                *watch = stroke.matcher;
                self.sums.add_comparisons(stroke.answer.comparisons);
                self.sums.add_ring(stroke.answer.ring);
            }
        }
    }

    // The byte goes through the rack.
    fn through_rack(&mut self, byte: u8) {
        if let Ok(struck) = &self.rack.stroke(byte) {
            self.rack = struck.rack;
            self.sums.add_reports(&struck.reports);
        }
    }

    fn take(&mut self, bytes: &[u8]) {
        self.sums.bytes = self.sums.bytes.wrapping_add(bytes.len() as u64);
        for byte in bytes {
            match self.way {
                Way::Watches => self.through_watches(*byte),
                Way::Rack => self.through_rack(*byte),
            }
        }
    }
}

// The next chunk of the input, to the buffer's front; none at its end.
fn read_chunk<'a>(rt: &HostRuntime, buffer: &'a mut [u8]) -> &'a [u8] {
    let count = match descriptor::fill(&mut rt.stdin(), buffer) {
        Ok(count) => count,
        Err(failed) => failed.count,
    };
    &buffer[..count]
}

fn main(rt: HostRuntime) -> io::Result<()> {
    let mut buffer = [0; CHUNK];
    let Some((front, stream)) = read_front(read_chunk(&rt, &mut buffer)) else {
        return println!(rt; "");
    };
    let Some(mut run) = Run::begin(&front) else {
        return println!(rt; "");
    };
    run.take(stream);
    for _ in 0..CHUNKS {
        let chunk = read_chunk(&rt, &mut buffer);
        if chunk.is_empty() {
            break;
        }
        run.take(chunk);
    }
    let Sums {
        bytes,
        comparisons,
        rings,
        starts,
    } = run.sums;
    println!(rt; "{bytes} {comparisons} {rings} {starts}")
}
