// What records are made of (document 01, "Records"), each at a place of a slice: numbers of 4 bytes, keys, fingerprints, and the head.
// What is written where there is no room for it leaves the slice as it was.
#![tactic(auto)]

ghost use Rattle.std.specs.Prelude.{◌≡◌, [], ◌∷◌};
ghost use Rattle.fields.specs.Calls.{put_each};
ghost use Rattle.fields.specs.Fields.{widths, number_at, values_at};
ghost use Rattle.fingerprint.specs.Fingerprint.{empty, key_of, print_of, no_key};
ghost use Rattle.record.specs.Layout.{
  word_width,
  word,
  kind_field,
  key_fields,
  print_fields,
};
ghost use Rattle.record.specs.Calls.{head_refusal};
ghost use Rattle.refusal.specs.Number.{number};

use fields::{Width, field_at, number_at, put};
use fingerprint::{Fingerprint, Key};
use refusal::{Refusal, Verdict};

// Sizes in bytes.
pub const WORD: usize = 4;

pub const KEY_SIZE: usize = 4;

pub const PRINT_SIZE: usize = 4;

// Places in bytes: behind the length field the kind, m, the key, and the first fingerprint.
pub const KIND_AT: usize = WORD;

pub const M_AT: usize = KIND_AT + 2;

pub const KEY_AT: usize = M_AT + WORD;

pub const PRINT_AT: usize = KEY_AT + KEY_SIZE;

// The number in a field of 4 bytes, 0 where it is missing.
pub fn word_at(buf: &[u8], at: usize) -> u32
    ensures { result ≡ number_at buf.now at word_width }
{
    number_at(buf, at, Width::Word) as u32
}

pub fn put_word(buf: &mut [u8], at: usize, value: u32)
    ensures { buf.new ≡ put_each buf.old at (word value ∷ []) }
{
    put(buf, at, Width::Word, value as u64);
}

// A key is one field, and so is a fingerprint. (Each has a writer and a reader of its own: a trait for the two would be no plainer, since it
// would say these lines again and the trait besides.)
pub fn put_key(buf: &mut [u8], at: usize, key: Key)
    ensures { buf.new ≡ put_each buf.old at (key_fields key) }
{
    put_word(buf, at, key.number());
}

pub fn key_at(buf: &[u8], at: usize) -> Key
    ensures { result ≡ key_of (values_at buf.now at (widths (key_fields no_key))) }
{
    Key::new(word_at(buf, at))
}

pub fn put_print(buf: &mut [u8], at: usize, print: Fingerprint)
    ensures { buf.new ≡ put_each buf.old at (print_fields print) }
{
    put_word(buf, at, print.number());
}

pub fn print_at(buf: &[u8], at: usize) -> Fingerprint
    ensures { result ≡ print_of (values_at buf.now at (widths (print_fields empty))) }
{
    Fingerprint::of_number(word_at(buf, at))
}

// Length and kind, before a record's other fields.
pub fn put_head(buf: &mut [u8], length: u32, kind: u64)
    ensures { buf.new ≡ put_each buf.old 0 (word length ∷ kind_field kind ∷ []) }
{
    put_word(buf, 0, length);
    put(buf, KIND_AT, Width::Half, kind);
}

// Reads the head of a record: 8, length under 2 (10), 9, length under the least of its kind (10). (A kind is a number: `head_refusal` is of every
// one.)
pub fn check_head(buf: &[u8], kind: u64, least: u64) -> Verdict
    ensures { number result ≡ head_refusal kind least buf.now }
{
    let Some(length) = field_at(buf, 0, Width::Word) else {
        return Err(Refusal::Short);
    };
    if ((buf.len() - WORD) as u64) < length {
        return Err(Refusal::Short);
    }
    if length < 2 {
        return Err(Refusal::Misfit);
    }
    if number_at(buf, KIND_AT, Width::Half) != kind {
        return Err(Refusal::Kind);
    }
    if length < least {
        return Err(Refusal::Misfit);
    }
    Ok(())
}
