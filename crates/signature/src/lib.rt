// The signature of a pattern (document 01, "Card"): the fingerprints of its tested prefixes, made byte by byte.
#![tactic(auto)]

ghost use Rattle.std.specs.Prelude.{◌≡◌, true, cond, ◌&&◌, leb, eqb, IfOk};
ghost use Rattle.fingerprint.specs.Fingerprint.{empty, same, print_fits};
ghost use Rattle.ladder.specs.Prefix.{levels, prefix_length};
ghost use Rattle.refusal.specs.Number.{number};
ghost use Rattle.signature.specs.Signature.{length_fits, reached, first_fits, prints_fit, signature_fits, builder_fits, nothing_taken, no_signature, stored};
ghost use Rattle.signature.specs.Calls.{begin_refusal, begun, push_refusal, after_push, finish_refusal, finished};

use fingerprint::{Fingerprint, Key};
use refusal::{Refusal, Verdict};

// The longest pattern.
pub const MAX_LENGTH: u32 = 1048576;

// Places for fingerprints: P_0 to P_20.
pub const PLACES: usize = 21;

// A card: the pattern's length m, the key, and the fingerprints of P_0 .. P_k, 0 past them.
#[derive(Clone, Copy)]
pub struct Signature {
    pub length: u32,
    pub key: Key,
    pub prints: [Fingerprint; PLACES],
}

// A half-made card: how many bytes were taken, their fingerprint, and the fingerprints of the prefixes reached.
#[derive(Clone, Copy)]
pub struct Builder {
    pub length: u32,
    pub key: Key,
    pub taken: u32,
    pub print: Fingerprint,
    pub prints: [Fingerprint; PLACES],
}

// The number of stages k of a pattern of m bytes: the least k with 2^k >= m.
// (A count beside a number that is doubled: the library has no logarithm.)
pub fn levels(m: u32) -> u32
    ensures { result ≡ levels m }
{
    let mut k: u32 = 0;
    let mut size: u64 = 1;
    while size < (m as u64) {
        size *= 2;
        k += 1;
    }
    k
}

// |P_i| of a pattern of m bytes: the smaller of 2^i and m.
pub fn prefix_length(m: u32, i: u32) -> u32
    ensures { result ≡ prefix_length m i }
{
    if i < 32 { (1 << i).min(m) } else { m }
}

// Whether `taken` bytes of a pattern of m bytes reach P_i, where k is its last (found once for all i, here and in `completes`).
fn reaches(m: u32, taken: u32, k: u32, i: u32) -> bool
    requires { k ≡ levels m }
    ensures { result ≡ reached m taken i }
{
    i <= k && prefix_length(m, i) <= taken
}

// Whether a print can stand where P_i is reached, or not reached.
fn place_fits(print: Fingerprint, reached: bool) -> bool
    ensures { result ≡ cond reached (print_fits print) (same print empty) }
{
    if reached {
        print.fits()
    } else {
        print.is_empty()
    }
}

// Whether a print can be the first: once the first byte reaches it, it is that of a byte.
fn first_fits(taken: u32, print: Fingerprint) -> bool
    ensures { result ≡ first_fits taken print }
{
    taken == 0 || print.is_of_byte()
}

fn prints_fit(prints: &[Fingerprint; PLACES], m: u32, taken: u32) -> bool
    ensures { result ≡ prints_fit m taken prints.now }
{
    if !first_fits(taken, prints[0]) {
        return false;
    }
    let k = levels(m);
    for (i, print) in prints.iter().enumerate() {
        if !place_fits(*print, reaches(m, taken, k, i as u32)) {
            return false;
        }
    }
    true
}

fn length_fits(m: u32) -> bool
    ensures { result ≡ length_fits m }
{
    1 <= m && m <= MAX_LENGTH
}

// Whether P_i of a pattern of m bytes is complete with byte number n, where k is its last.
fn completes(m: u32, n: u32, k: u32, i: u32) -> bool
    requires { k ≡ levels m }
    ensures { result ≡ (leb i (levels m) && eqb (prefix_length m i) n) }
{
    i <= k && prefix_length(m, i) == n
}

// Stores `print` for the prefix of m bytes that byte number n completes.
fn store(prints: &mut [Fingerprint; PLACES], m: u32, n: u32, print: Fingerprint)
    ensures { prints.new ≡ stored m n print prints.old }
{
    let k = levels(m);
    for (i, place) in prints.iter_mut().enumerate() {
        *place = if completes(m, n, k, i as u32) {
            print
        } else {
            *place
        };
    }
}

impl Signature {
    // The card that holds nothing, a misfit.
    pub fn none() -> Signature
        ensures { result ≡ no_signature }
    {
        Signature {
            length: 0,
            key: Key::none(),
            prints: [Fingerprint::empty(); PLACES],
        }
    }

    // Whether the card is no misfit.
    #[tactic(auto, using(lists::proofs::Tests::tests), unfolding(crate::specs::Signature::signature_fits))]
    pub fn fits(self) -> bool
        ensures { result ≡ signature_fits self }
    {
        length_fits(self.length)
            && self.key.fits()
            && prints_fit(&self.prints, self.length, self.length)
    }
}

impl Builder {
    // Begins a card for a pattern of m bytes. Refusals: 1 empty, 2 overlong, 3 key.
    #[tactic(auto, using(lists::proofs::Tests::tests), unfolding(crate::specs::Calls::begun))]
    pub fn begin(m: u32, key: Key) -> Result<Builder, Refusal>
        ensures verdict { number result ≡ begin_refusal m key }
        ensures builder { IfOk result (λ b. b ≡ begun m key) }
    {
        if m == 0 {
            return Err(Refusal::Empty);
        }
        if MAX_LENGTH < m {
            return Err(Refusal::Overlong);
        }
        if !key.fits() {
            return Err(Refusal::Key);
        }
        Ok(Builder::blank(m, key))
    }

    // No bytes taken.
    fn blank(m: u32, key: Key) -> Builder
        ensures { result ≡ nothing_taken m key }
    {
        Builder {
            length: m,
            key,
            taken: 0,
            print: Fingerprint::empty(),
            prints: [Fingerprint::empty(); PLACES],
        }
    }

    // Whether the half-made card is no misfit.
    #[tactic(auto, using(lists::proofs::Tests::tests), unfolding(crate::specs::Signature::builder_fits))]
    pub fn fits(self) -> bool
        ensures { result ≡ builder_fits self }
    {
        length_fits(self.length)
            && self.key.fits()
            && self.taken <= self.length
            && self.print.fits()
            && running_fits(self.taken as u64, self.print)
            && prints_fit(&self.prints, self.length, self.taken)
    }

    // Takes a byte of the pattern; a refused one leaves the half-made card as it was. Refusals: 10 misfit, 5 surplus.
    #[tactic(auto, using(lists::proofs::Tests::tests), unfolding(crate::specs::Calls::after_push))]
    pub fn push(&mut self, byte: u8) -> Verdict
        ensures verdict { number result ≡ push_refusal self.old }
        ensures builder { self.new ≡ after_push self.old byte }
    {
        if !self.fits() {
            return Err(Refusal::Misfit);
        }
        if self.length <= self.taken {
            return Err(Refusal::Surplus);
        }
        self.taken += 1;
        self.print = self.print.push(self.key, byte);
        store(&mut self.prints, self.length, self.taken, self.print);
        Ok(())
    }

    // Gives the card. Refusals: 10 misfit, 4 unfinished.
    #[tactic(auto, using(lists::proofs::Tests::tests), unfolding(crate::specs::Calls::finished))]
    pub fn finish(self) -> Result<Signature, Refusal>
        ensures verdict { number result ≡ finish_refusal self }
        ensures signature { IfOk result (λ s. s ≡ finished self) }
    {
        if !self.fits() {
            return Err(Refusal::Misfit);
        }
        if self.taken < self.length {
            return Err(Refusal::Unfinished);
        }
        let prints = self.prints; // an array is made part of a literal by a name of its own
        Ok(Signature {
            length: self.length,
            key: self.key,
            prints,
        })
    }
}

// A running print is 0 at 0 bytes.
pub fn running_fits(taken: u64, print: Fingerprint) -> bool
    ensures { result ≡ cond (eqb taken 0) (same print empty) true }
{
    taken != 0 || print.is_empty()
}
