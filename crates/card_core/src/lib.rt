// A card made from a whole passage (document 01, "Card"), its record, and the key as a program's argument.
#![tactic(auto)]

ghost use Rattle.std.specs.Prelude.{◌≡◌, min, IfOk};
ghost use Rattle.refusal.specs.Number.{number};
ghost use Rattle.card_core.specs.Card.{overlong, make_refusal, made_signature, card_refusal, card_used, card_buffer};
ghost use Rattle.card_core.specs.Argument.{most_key, argument_key};

use card_record::write_signature;
use fingerprint::Key;
use refusal::Refusal;
use signature::{Builder, MAX_LENGTH, Signature};

// The largest number that a key's field holds.
const MOST_KEY: u32 = u32::MAX;

// One more than the longest passage.
pub const OVERLONG: u32 = MAX_LENGTH + 1;

// The number in a key's field: the largest that fits stands for every number above.
fn field(n: u64) -> u32
    ensures { result ≡ min n most_key }
{
    u32::try_from(n).unwrap_or(MOST_KEY)
}

// The key of a number; one that is too large for a key's field is refused as the largest that fits is.
pub fn key_of(n: u64) -> Key
    ensures { result ≡ argument_key n }
{
    Key::new(field(n))
}

// The length that the builder is told: one more than the longest stands for every length above.
fn told(length: usize) -> u32
    ensures { result ≡ min length overlong }
{
    length.min(OVERLONG as usize) as u32
}

// The card of a passage. Refusals: 1 empty, 2 overlong, 3 key.
pub fn make(passage: &[u8], key: Key) -> Result<Signature, Refusal>
    ensures verdict { number result ≡ make_refusal key passage.now }
    ensures signature { IfOk result (λ made. made ≡ made_signature key passage.now) }
{
    let mut builder = Builder::begin(told(passage.len()), key)?;
    for byte in passage {
        builder.push(*byte)?;
    }
    builder.finish()
}

// Writes the card of a passage into the front of the buffer, and gives the bytes used. Refusals: 1 empty, 2 overlong, 3 key, 7 no space.
pub fn write_card(passage: &[u8], key: Key, out: &mut [u8]) -> Result<usize, Refusal>
    ensures verdict { number result ≡ card_refusal key passage.now out.old }
    ensures used { IfOk result (λ used. used ≡ card_used key passage.now out.old) }
    ensures buffer { out.new ≡ card_buffer key passage.now out.old }
{
    let signature = make(passage, key)?;
    write_signature(signature, out)
}
