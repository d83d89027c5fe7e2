// A rack's places, its labels and racks.
ghost use Rattle.std.specs.Prelude.{◌≡◌};
ghost use Rattle.driver_values.specs.Racks.{place_in, places_in, rack_in, labels_in};

use crate::cards::{CARD, card, key};
use crate::watches::{ALL_STAGES, MARK, mark, stages};
use driver_input::{from, half, number, word};
use rack::Rack;
use rack_names::CARDS;
use rack_place::Place;
use std::array;

const BEFORE_STAGES: u32 = 2 + CARD;

const BEFORE_PLACES: u32 = 1 + MARK;

// How many numbers a place and a rack have.
pub const PLACE: u32 = BEFORE_STAGES + ALL_STAGES;

pub const WHOLE: u32 = BEFORE_PLACES + PLACE * CARDS as u32;

#[tactic(auto, unfolding(crate::specs::Racks::place_in))]
pub fn place(values: &[u8]) -> Place
    ensures { result ≡ place_in values.now }
{
    Place {
        name: half(values, 0),
        since: number(values, 1),
        signature: card(from(values, 2)),
        stages: stages(from(values, BEFORE_STAGES)),
    }
}

fn places(values: &[u8]) -> [Place; CARDS]
    ensures { result ≡ places_in values.now }
{
    array::from_fn(|i| place(from(values, PLACE * (i as u32))))
}

#[tactic(auto, unfolding(crate::specs::Racks::rack_in))]
pub fn rack(values: &[u8]) -> Rack
    ensures { result ≡ rack_in values.now }
{
    Rack {
        key: key(values, 0),
        now: mark(from(values, 1)),
        places: places(from(values, BEFORE_PLACES)),
    }
}

pub fn labels(values: &[u8]) -> [u32; CARDS]
    ensures { result ≡ labels_in values.now }
{
    array::from_fn(|i| word(values, i as u32))
}
