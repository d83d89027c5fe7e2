// Keys, fingerprints, cards and half-made cards.
ghost use Rattle.std.specs.Prelude.{◌≡◌};
ghost use Rattle.lists.specs.Lists.{tabulate};
ghost use Rattle.signature.specs.Signature.{places};
ghost use Rattle.driver_values.specs.Cards.{key_in, print_in, card_in, builder_in};

use driver_input::{from, word};
use fingerprint::{Fingerprint, Key};
use signature::{Builder, PLACES, Signature};
use std::array;

// How many numbers a card and a half-made card have.
pub const CARD: u32 = 2 + PLACES as u32;

pub const BUILDER: u32 = 4 + PLACES as u32;

pub fn key(values: &[u8], i: u32) -> Key
    ensures { result ≡ key_in values.now i }
{
    Key::new(word(values, i))
}

pub fn print(values: &[u8], i: u32) -> Fingerprint
    ensures { result ≡ print_in values.now i }
{
    Fingerprint::of_number(word(values, i))
}

fn prints(values: &[u8]) -> [Fingerprint; PLACES]
    ensures { result ≡ tabulate (print_in values.now) places }
{
    array::from_fn(|i| print(values, i as u32))
}

#[tactic(auto, unfolding(crate::specs::Cards::card_in))]
pub fn card(values: &[u8]) -> Signature
    ensures { result ≡ card_in values.now }
{
    Signature {
        length: word(values, 0),
        key: key(values, 1),
        prints: prints(from(values, 2)),
    }
}

#[tactic(auto, unfolding(crate::specs::Cards::builder_in))]
pub fn builder(values: &[u8]) -> Builder
    ensures { result ≡ builder_in values.now }
{
    Builder {
        length: word(values, 0),
        key: key(values, 1),
        taken: word(values, 2),
        print: print(values, 3),
        prints: prints(from(values, 4)),
    }
}
