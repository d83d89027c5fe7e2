// The events of a track, and their quantities.
ghost use Rattle.std.specs.Prelude.{◌≡◌, Some, None, cond, eqb};
ghost use Rattle.midi_file.specs.File.{byte};
ghost use Rattle.midi_file.specs.Track.{
  data_count,
  is_data,
  quantity_at,
  block_at,
  message_at,
  exclusive_at,
  meta_at,
  event_at,
  running_behind,
  is_end,
  is_bare,
};

// A quantity: its value, and the place behind it.
#[derive(Clone, Copy, PartialEq, Eq, Debug)]
pub struct Quantity {
    pub value: usize,
    pub behind: usize,
}

// An event: a channel message with its status and its data bytes, an exclusive event, or a meta event with its type and its length.
#[derive(Clone, Copy, PartialEq, Eq, Debug)]
pub enum Event {
    Message(u8, u8, u8),
    Exclusive,
    Meta(u8, usize),
}

// An event, and the place where it ends.
#[derive(Clone, Copy, PartialEq, Eq, Debug)]
pub struct Placed {
    pub event: Event,
    pub end: usize,
}

// The most bytes of a quantity.
pub(crate) const MOST_QUANTITY: usize = 4;

// The meta event that ends a track.
const END_OF_TRACK: u8 = 47;

// The quantity at a place: seven bits in each byte, the most significant first. There is none where it is cut short or has more than four bytes.
fn quantity_at(track: &[u8], from: usize) -> Option<Quantity>
    ensures { result ≡ quantity_at track.now from }
{
    let mut value: usize = 0;
    for i in 0..MOST_QUANTITY {
        let &byte = track.get(from + i)?;
        if byte < 128 {
            return Some(Quantity {
                value: 128 * value + byte as usize,
                behind: from + i + 1,
            });
        }
        value = 128 * value + (byte - 128) as usize;
    }
    None
}

// A quantity and so many bytes behind it: how many, and the place behind them.
#[tactic(auto, unfolding(crate::specs::Track::block_from))]
fn block_at(track: &[u8], at: usize) -> Option<Quantity>
    ensures { result ≡ block_at track.now at }
{
    let Quantity { value, behind } = quantity_at(track, at)?;
    if track.len() - behind < value {
        return None;
    }
    Some(Quantity {
        value,
        behind: behind + value,
    })
}

// The data byte of a channel message at a place, if one stands there.
fn data_at(track: &[u8], at: usize) -> Option<u8>
    ensures { result ≡ cond (is_data track.now at) (Some (byte track.now at)) None }
{
    if at < track.len() && track[at] < 128 {
        Some(track[at])
    } else {
        None
    }
}

// Whether channel messages of a status have one data byte, and not two.
fn has_one_data_byte(status: u8) -> bool
    ensures { result ≡ eqb (data_count status) 1 }
{
    192 <= status && status < 224
}

// The channel message of a status, its data bytes from a place on.
#[tactic(auto, unfolding(crate::specs::Track::message_at))]
fn message_at(track: &[u8], status: u8, at: usize) -> Option<Placed>
    ensures { result ≡ message_at track.now status at }
{
    let first = data_at(track, at)?;
    if has_one_data_byte(status) {
        return Some(Placed {
            event: Event::Message(status, first, 0),
            end: at + 1,
        });
    }
    let second = data_at(track, at + 1)?;
    Some(Placed {
        event: Event::Message(status, first, second),
        end: at + 2,
    })
}

// An exclusive event behind its status: a quantity, and so many bytes.
#[tactic(auto, unfolding(crate::specs::Track::exclusive_of))]
fn exclusive_at(track: &[u8], at: usize) -> Option<Placed>
    ensures { result ≡ exclusive_at track.now at }
{
    let block = block_at(track, at)?;
    Some(Placed {
        event: Event::Exclusive,
        end: block.behind,
    })
}

// A meta event behind its status: a type, a quantity, and so many bytes.
#[tactic(auto, unfolding(crate::specs::Track::meta_at, crate::specs::Track::meta_of))]
fn meta_at(track: &[u8], at: usize) -> Option<Placed>
    ensures { result ≡ meta_at track.now at }
{
    let &kind = track.get(at)?;
    let block = block_at(track, at + 1)?;
    Some(Placed {
        event: Event::Meta(kind, block.value),
        end: block.behind,
    })
}

// The event at a place, with a running status, or 0 where there is none (no Option: `event_at` and `running_behind` of specs/ have 0 for none).
#[tactic(auto, unfolding(crate::specs::Track::event_at))]
pub(crate) fn event_at(track: &[u8], running: u8, at: usize) -> Option<Placed>
    ensures { result ≡ event_at track.now running at }
{
    let &byte = track.get(at)?;
    match byte {
        0..=127 if running == 0 => None,
        0..=127 => message_at(track, running, at),
        128..=239 => message_at(track, byte, at + 1),
        240 | 247 => exclusive_at(track, at + 1),
        255 => meta_at(track, at + 1),
        _ => None,
    }
}

impl Event {
    // The running status behind the event, 0 where there is none.
    pub(crate) fn running(self) -> u8
        ensures { result ≡ running_behind self }
    {
        match self {
            Event::Message(status, _, _) => status,
            Event::Exclusive | Event::Meta(_, _) => 0,
        }
    }

    // Whether it is an end of track.
    pub(crate) fn is_end(self) -> bool
        ensures { result ≡ is_end self }
    {
        matches!(self, Event::Meta(END_OF_TRACK, _))
    }

    // Whether it is a meta event of length 0.
    pub(crate) fn is_bare(self) -> bool
        ensures { result ≡ is_bare self }
    {
        matches!(self, Event::Meta(_, 0))
    }
}
