// The refusals of document 01's table ("The board's refusals"), each with its number.
#![tactic(auto)]

ghost use Rattle.std.specs.Prelude.{◌≡◌};
ghost use Rattle.refusal.specs.Number.{refusal_number, number};

#[derive(Clone, Copy, PartialEq, Eq, Debug)]
pub enum Refusal {
    Empty,
    Overlong,
    Key,
    Unfinished,
    Surplus,
    Spent,
    NoSpace,
    Short,
    Kind,
    Misfit,
    OtherPassage,
    Full,
    NameTaken,
    NameAbsent,
    NoTrack,
    Broken,
    OutsideBells,
    TooWide,
}

// Whether something was refused: the result of a call with no value, and a field where values stand beside a refusal too.
pub type Verdict = Result<(), Refusal>;

impl Refusal {
    // Document 01's number. (A method and no From: README.md and the contracts name it.)
    pub fn number(self) -> u32
        ensures { result ≡ refusal_number self }
    {
        match self {
            Refusal::Empty => 1,
            Refusal::Overlong => 2,
            Refusal::Key => 3,
            Refusal::Unfinished => 4,
            Refusal::Surplus => 5,
            Refusal::Spent => 6,
            Refusal::NoSpace => 7,
            Refusal::Short => 8,
            Refusal::Kind => 9,
            Refusal::Misfit => 10,
            Refusal::OtherPassage => 11,
            Refusal::Full => 12,
            Refusal::NameTaken => 13,
            Refusal::NameAbsent => 14,
            Refusal::NoTrack => 15,
            Refusal::Broken => 16,
            Refusal::OutsideBells => 17,
            Refusal::TooWide => 18,
        }
    }
}

// The number of the refusal of a call, or 0 where it was accepted.
pub fn number_of<T>(outcome: &Result<T, Refusal>) -> u32
    ensures { result ≡ number outcome.now }
{
    match outcome {
        Ok(_) => 0,
        Err(refusal) => refusal.number(),
    }
}
