// The rows of the refusal table, each by its meaning; C and a person read its number.
#![tactic(auto)]

ghost use Rattle.std.specs.Prelude.{◌≡◌};
ghost use Rattle.refusals.specs.Numbers.{number_of};

// Why a call is refused.
#[derive(Clone, Copy, Debug, PartialEq, Eq)]
pub enum Refusal {
    // The side is out of range.
    Side,
    // The levels are out of range at this side.
    Levels,
    // A slice is not as long as the picture.
    Length,
    // A wavelet number is beyond the limit.
    Magnitude,
    // There are too many planes.
    Planes,
    // There are more bits or bytes than there is room for.
    Room,
    // It is no label.
    Label,
    // A check of a block is wrong.
    Check,
    // A field of a block, or what is to be one, is out of range.
    Field,
    // It is not the next block of this record.
    Turn,
    // The place where the cut fell is beyond the picture.
    Place,
    // A thumbnail can't be halved so often.
    Halvings,
}

impl Refusal {
    // Its number in the refusal table.
    pub fn number(self) -> u32
        ensures { result ≡ number_of self }
    {
        match self {
            Refusal::Side => 1,
            Refusal::Levels => 2,
            Refusal::Length => 3,
            Refusal::Magnitude => 4,
            Refusal::Planes => 5,
            Refusal::Room => 6,
            Refusal::Label => 7,
            Refusal::Check => 8,
            Refusal::Field => 9,
            Refusal::Turn => 10,
            Refusal::Place => 11,
            Refusal::Halvings => 13,
        }
    }
}
