// Counters of a case.
use std::io;

// The counters, in the order in which they are printed, and the digest of the present pass, which is not.
#[derive(Clone, Copy, Default)]
pub(crate) struct Tally {
    // Times that the stream was taken through, and the cuts in them.
    pub passes: u32,
    pub cuts: u32,
    // True occurrences, and those of them that were set aside.
    pub occurrences: u32,
    pub missed: u32,
    // Rings, and those of them that are false.
    pub rings: u32,
    pub false_rings: u32,
    // Sets, and the starts in them.
    pub sets: u32,
    pub aside: u32,
    pub comparisons: u32,
    // A digest of the answers of the uncut pass in their order.
    pub uncut: u32,
    pub failures: u32,
    pub digest: u32,
}

// Adds to a counter.
pub(crate) fn count(counter: &mut u32, by: u32) {
    *counter = counter.wrapping_add(by);
}

impl Tally {
    // Counts a failure where a check does not hold.
    pub(crate) fn expect(&mut self, holds: bool) {
        if !holds {
            count(&mut self.failures, 1);
        }
    }

    // Takes a number of an answer into the digest.
    pub(crate) fn mix(&mut self, value: u64) {
        let mixed = ((self.digest as u64) * 65599 + value % 4294967291) % 4294967291;
        self.digest = mixed as u32;
    }

    // The counters, and the line's end. (No Display: they are counters of one width, printed by one loop.)
    pub(crate) fn print(&self, rt: &HostRuntime) -> io::Result<()> {
        let counters = [
            self.passes,
            self.cuts,
            self.occurrences,
            self.missed,
            self.rings,
            self.false_rings,
            self.sets,
            self.aside,
            self.comparisons,
            self.uncut,
            self.failures,
        ];
        for counter in counters {
            print!(rt; " {counter}")?;
        }
        println!(rt; "")
    }
}
