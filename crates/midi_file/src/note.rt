// What the events of a track give between a lowest and a highest bell.
ghost use Rattle.std.specs.Prelude.{◌≡◌};
ghost use Rattle.midi_file.specs.Strokes.{note_on, note_of};

use crate::Bells;
use crate::event::Event;

// What an event gives: a key outside the bells, silence, or a stroke. Three cases, so no Option: `Rule` of
// specs/Strokes.antt and the laws of the former rule have them as one.
#[derive(Clone, Copy, PartialEq, Eq, Debug)]
pub enum Note {
    Outside,
    Silent,
    Struck(u8),
}

// The rule at a Note On.
#[tactic(auto, unfolding(crate::specs::Strokes::note_on))]
fn note_on(bells: Bells, key: u8, velocity: u8) -> Note
    ensures { result ≡ note_on bells key velocity }
{
    if velocity == 0 {
        return Note::Silent;
    }
    if key < bells.lowest || bells.highest < key {
        return Note::Outside;
    }
    Note::Struck(key)
}

// What an event gives: at a Note On what its rule says, else silence.
pub(crate) fn note_of(bells: Bells, event: Event) -> Note
    ensures { result ≡ note_of (note_on bells) event }
{
    let Event::Message(status, key, velocity) = event else {
        return Note::Silent;
    };
    if 144 <= status && status < 160 {
        return note_on(bells, key, velocity);
    }
    Note::Silent
}
