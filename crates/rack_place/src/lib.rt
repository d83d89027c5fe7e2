// A card's place in a rack (document 02, A.1): free or with a card under a name, and the search for one among a rack's places.
#![tactic(auto)]

ghost use Rattle.std.specs.Prelude.{◌≡◌, ◌≤◌};
ghost use Rattle.rack_names.specs.Names.{name_count};
ghost use Rattle.rack_place.specs.Place.{
  no_place,
  is_free,
  is_clear,
  clear_prints,
  clear_stages,
  free_fits,
  has_name,
  label_of,
  in_rack,
  place_of,
  free_place,
  begun_fits,
  card_fits,
  placed,
};

use fingerprint::{Fingerprint, Key};
use rack_names::CARDS;
use signature::{PLACES, Signature};
use stage::{Mark, STAGES, Stage};

// A card in a rack: its name, the count at which it was put in, the card and what its stages list. A place whose card has length 0 is free
// (no Option: `free_fits` judges a free place that is not all 0).
#[derive(Clone, Copy)]
pub struct Place {
    pub name: u16,
    pub since: u64,
    pub signature: Signature,
    pub stages: [Stage; STAGES],
}

// Whether all prints are 0.
fn clear_prints(prints: &[Fingerprint; PLACES]) -> bool
    ensures { result ≡ clear_prints prints.now }
{
    prints.iter().all(|print| print.is_empty())
}

// Whether the stages list nothing, and are all 0.
fn clear_stages(stages: &[Stage; STAGES]) -> bool
    ensures { result ≡ clear_stages stages.now }
{
    stages
        .iter()
        .all(|stage| stage.held == 0 && stage.none_fits())
}

impl Place {
    // A free place.
    pub fn none() -> Place
        ensures { result ≡ no_place }
    {
        Place::with(0, 0, Signature::none())
    }

    // A place with a card that is put in: its stages list nothing.
    pub fn with(name: u16, since: u64, signature: Signature) -> Place
        ensures { result ≡ placed name since signature }
    {
        Place {
            name,
            since,
            signature,
            stages: [Stage::none(); STAGES],
        }
    }

    // Whether no card is in the place.
    pub fn is_free(self) -> bool
        ensures { result ≡ is_free self }
    {
        self.signature.length == 0
    }

    // Whether a card of the name is in the place.
    pub fn has_name(self, name: u16) -> bool
        ensures { result ≡ has_name name self }
    {
        !self.is_free() && self.name == name
    }

    // What stands for the place in a list of names: 0 where it is free, else its name and 1.
    pub fn label(self) -> u32
        ensures { (result ≡ label_of self) × (result ≤ name_count) }
    {
        if self.is_free() {
            0
        } else {
            u32::from(self.name) + 1
        }
    }

    // Whether all is 0. (Not `== Place::none()`: cards and places would derive equality for this alone.)
    #[tactic(auto, unfolding(crate::specs::Place::is_clear))]
    pub fn is_clear(&self) -> bool
        ensures { result ≡ is_clear self.entry.now }
    {
        self.name == 0
            && self.since == 0
            && self.signature.length == 0
            && self.signature.key.is_none()
            && clear_prints(&self.signature.prints)
            && clear_stages(&self.stages)
    }

    // Whether the place is all 0, if it is free.
    pub fn free_fits(&self) -> bool
        ensures { result ≡ free_fits self.entry.now }
    {
        !self.is_free() || self.is_clear()
    }
}

// The place of a name, if it is there.
pub fn place_of(places: [Place; CARDS], name: u16) -> Option<usize>
    ensures { result ≡ in_rack (place_of name places) }
{
    places.iter().position(|place| place.has_name(name))
}

// The first free place, if there is one.
pub fn free_place(places: [Place; CARDS]) -> Option<usize>
    ensures { result ≡ in_rack (free_place places) }
{
    places.iter().position(|place| place.is_free())
}

// Whether a key and t with F_t are no misfits in a rack.
pub fn begun_fits(key: Key, now: Mark) -> bool
    ensures { result ≡ begun_fits key now }
{
    key.fits() && now.fits()
}

// Whether a card is no misfit and has the key.
#[tactic(auto, unfolding(fingerprint::specs::Fingerprint::same_key))]
pub fn card_fits(signature: Signature, key: Key) -> bool
    ensures { result ≡ card_fits signature key }
{
    signature.fits() && signature.key == key
}
