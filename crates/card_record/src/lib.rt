// The record of a card (document 01, "Records"): written into a lent buffer, and read back.
#![tactic(auto)]

ghost use Rattle.std.specs.Prelude.{◌≡◌, ◌+◌, ◌*◌, ◌≤◌, ◌<◌, length, IfOk};
ghost use Rattle.ladder.specs.Prefix.{levels};
ghost use Rattle.lists.specs.Lists.{tabulate};
ghost use Rattle.refusal.specs.Number.{number};
ghost use Rattle.signature.specs.Signature.{places};
ghost use Rattle.fields.specs.Fields.{values_at, gathered, stamped, pasted};
ghost use Rattle.record.specs.Layout.{length_width, print_fields_of};
ghost use Rattle.record.specs.Places.{print_size, print_place};
ghost use Rattle.card_record.specs.Layout.{signature_length, signature_widths, signature_record, signature_at, signature_place};
ghost use Rattle.card_record.specs.Calls.{write_refusal, write_used, write_buffer, read_refusal, read_signature, read_taken};

use fingerprint::Fingerprint;
use record::{
    KEY_AT, M_AT, PRINT_AT, PRINT_SIZE, WORD, check_head, key_at, print_at, put_head, put_key,
    put_print, put_word, word_at,
};
use refusal::Refusal;
use signature::{PLACES, Signature, levels};
use std::array;

// The kind of a card's record, and the least length field that one can have.
pub const SIGNATURE_KIND: u64 = 3;

pub const SIGNATURE_LEAST: u64 = 10;

// What reading a card hands back: the card, and the bytes taken.
#[derive(Clone, Copy)]
pub struct SignatureRead {
    pub signature: Signature,
    pub taken: usize,
}

// How many bytes a card's record has, for k stages.
fn signature_size(k: u32) -> usize
    ensures { result ≡ signature_length k + length_width }
{
    PRINT_AT + PRINT_SIZE * ((k as usize) + 1)
}

// Writes fingerprints one behind another.
fn put_prints(buf: &mut [u8], prints: &[Fingerprint])
    requires { print_place + print_size * length prints.now ≤ length buf.old }
    ensures { buf.new ≡ stamped buf.old print_place (gathered (print_fields_of prints.now) (length prints.now)) }
{
    for (i, print) in prints.iter().enumerate() {
        put_print(buf, PRINT_AT + PRINT_SIZE * i, *print);
    }
}

// Writes the card's record at the front of a buffer that has room for it. (k and the room were found by the caller.)
fn put_signature(buf: &mut [u8], signature: Signature, k: u32)
    requires { (k ≡ levels signature.length) × (k < places) × (print_place + print_size * (k + 1) ≤ length buf.old) }
    ensures { buf.new ≡ pasted buf.old 0 (signature_record signature) }
{
    put_head(buf, (signature_size(k) - WORD) as u32, SIGNATURE_KIND);
    put_word(buf, M_AT, signature.length);
    put_key(buf, KEY_AT, signature.key);
    put_prints(buf, &signature.prints[..(k as usize) + 1]);
}

// Writes a card into the front of the buffer, and gives the bytes used. Refusals: 10 misfit, 7 no space.
pub fn write_signature(signature: Signature, buf: &mut [u8]) -> Result<usize, Refusal>
    ensures verdict { number result ≡ write_refusal signature buf.old }
    ensures used { IfOk result (λ used. used ≡ write_used signature buf.old) }
    ensures buffer { buf.new ≡ write_buffer signature buf.old }
{
    if !signature.fits() {
        return Err(Refusal::Misfit);
    }
    let k = levels(signature.length);
    let size = signature_size(k);
    if buf.len() < size {
        return Err(Refusal::NoSpace);
    }
    put_signature(buf, signature, k);
    Ok(size)
}

// The fingerprint at place i of a card's record with k stages: nothing past P_k.
fn place_at(buf: &[u8], k: u32, i: usize) -> Fingerprint
    requires { i < places }
    ensures { result ≡ signature_place (values_at buf.now 0 (signature_widths k)) k i }
{
    if i <= (k as usize) {
        print_at(buf, PRINT_AT + PRINT_SIZE * i)
    } else {
        Fingerprint::empty()
    }
}

fn prints_at(buf: &[u8], k: u32) -> [Fingerprint; PLACES]
    ensures { result ≡ tabulate (signature_place (values_at buf.now 0 (signature_widths k)) k) places }
{
    array::from_fn(|i| place_at(buf, k, i))
}

// The card that a card's record makes.
fn signature_at(buf: &[u8]) -> Signature
    ensures { result ≡ signature_at buf.now }
{
    let m = word_at(buf, M_AT);
    let prints = prints_at(buf, levels(m));
    Signature {
        length: m,
        key: key_at(buf, KEY_AT),
        prints,
    }
}

// Reads a card. Refusals: those of the head, then 10 where the length does not suit k or the card misfits.
pub fn read_signature(buf: &[u8]) -> Result<SignatureRead, Refusal>
    ensures verdict { number result ≡ read_refusal buf.now }
    ensures signature { IfOk result (λ read. read.signature ≡ read_signature buf.now) }
    ensures taken { IfOk result (λ read. read.taken ≡ read_taken buf.now) }
{
    check_head(buf, SIGNATURE_KIND, SIGNATURE_LEAST)?;
    let taken = (word_at(buf, 0) as usize) + WORD;
    if taken != signature_size(levels(word_at(buf, M_AT))) {
        return Err(Refusal::Misfit);
    }
    let signature = signature_at(buf);
    if !signature.fits() {
        return Err(Refusal::Misfit);
    }
    Ok(SignatureRead { signature, taken })
}
