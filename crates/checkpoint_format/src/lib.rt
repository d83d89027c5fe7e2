// The two records of a parked watch (document 01, "Records"; document 02, A.5): their kinds, widths, sizes and places.
#![tactic(auto)]

ghost use Rattle.std.specs.Prelude.{◌≡◌, ◌+◌};
ghost use Rattle.fields.specs.Calls.{width_of};
ghost use Rattle.record.specs.Layout.{length_width};
ghost use Rattle.checkpoint_format.specs.Layout.{place_width, checkpoint_kind, checkpoint_length};
ghost use Rattle.checkpoint_format.specs.Places.{mark_size, stage_size, stages_place};
ghost use Rattle.checkpoint_format.specs.Calls.{can_say, checkpoint_least};

use fields::Width;
use record::{PRINT_AT, PRINT_SIZE, WORD};

// The two records of a parked watch: a wide one has places of the stream in 8 bytes, a narrow one in 4.
#[derive(Clone, Copy, PartialEq, Eq, Debug)]
pub enum Format {
    Narrow,
    Wide,
}

// The kinds of a checkpoint's record, narrow and wide, and the least length field that one of each can have.
pub const NARROW_KIND: u64 = 4;

pub const WIDE_KIND: u64 = 5;

pub const NARROW_LEAST: u64 = 22;

pub const WIDE_LEAST: u64 = 26;

// The last t that a narrow record can say.
pub const MAX_NARROW: u64 = 4294967295;

// Size in bytes: a gap is a number and a fingerprint.
pub const GAP_SIZE: usize = WORD + PRINT_SIZE;

// Place in a stage: behind held the first start.
pub const FIRST_AT: usize = WORD;

// Place in the record: behind the fingerprint of P_k stand t and F_t.
pub const NOW_AT: usize = PRINT_AT + PRINT_SIZE;

impl Format {
    // The width of a place of the stream.
    pub fn width(self) -> Width
        ensures { width_of result ≡ place_width self }
    {
        match self {
            Format::Narrow => Width::Word,
            Format::Wide => Width::Double,
        }
    }

    // (`kind` and `least` are a match each: a table of both, with its index, would be no plainer.)
    pub fn kind(self) -> u64
        ensures { result ≡ checkpoint_kind self }
    {
        match self {
            Format::Narrow => NARROW_KIND,
            Format::Wide => WIDE_KIND,
        }
    }

    // The least length field.
    pub fn least(self) -> u64
        ensures { result ≡ checkpoint_least self }
    {
        match self {
            Format::Narrow => NARROW_LEAST,
            Format::Wide => WIDE_LEAST,
        }
    }

    // Whether a t can be said.
    pub fn can_say(self, t: u64) -> bool
        ensures { result ≡ can_say self t }
    {
        match self {
            Format::Narrow => t <= MAX_NARROW,
            Format::Wide => true,
        }
    }

    // Sizes in bytes: a mark is a place and a fingerprint; a stage is held, the first start, the last and the step.
    pub fn mark_size(self) -> usize
        ensures { result ≡ mark_size self }
    {
        self.width().bytes() + PRINT_SIZE
    }

    pub fn stage_size(self) -> usize
        ensures { result ≡ stage_size self }
    {
        FIRST_AT + 2 * self.mark_size() + GAP_SIZE
    }

    // Place in the record: behind t and F_t stand the stages.
    pub fn stages_at(self) -> usize
        ensures { result ≡ stages_place self }
    {
        NOW_AT + self.mark_size()
    }
}

// How many bytes a checkpoint's record has, for k stages.
pub fn checkpoint_size(format: Format, k: u32) -> usize
    ensures { result ≡ checkpoint_length format k + length_width }
{
    format.stages_at() + format.stage_size() * (k as usize)
}
