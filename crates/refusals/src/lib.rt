// Why a call is refused: one enum for the whole library, a case for each row of document 01's two tables and then of document 02.
#![tactic(auto)]

ghost use Rattle.std.specs.Prelude.{◌≡◌};
ghost use Rattle.refusals.specs.Refusals.{number_of, place_of};

#[derive(Clone, Copy, Debug, PartialEq, Eq)]
pub enum Refusal {
    Axes,
    Level,
    TableLength,
    Rate(u64),
    Axis(u32),
    PointNumber,
    ListLength,
    Coordinate(u32),
    NoPoint,
    Contents,
    FileEnds,
    FiledNumber,
    BytesLeft,
    StrayBit,
    AlreadyForward(u32),
    NotForward(u32),
    StillSampled(u32),
    StillForward(u32),
    TooManyPoints,
    Allowance,
    Tag,
    NoSlot,
}

impl Refusal {
    // The paper's number.
    pub fn number(self) -> u32
        ensures { result ≡ number_of self }
    {
        match self {
            Refusal::Axes => 1,
            Refusal::Level => 2,
            Refusal::TableLength => 3,
            Refusal::Rate(_) => 4,
            Refusal::Axis(_) => 5,
            Refusal::PointNumber => 6,
            Refusal::ListLength => 7,
            Refusal::Coordinate(_) => 8,
            Refusal::NoPoint => 9,
            Refusal::Contents => 10,
            Refusal::FileEnds => 11,
            Refusal::FiledNumber => 12,
            Refusal::BytesLeft => 13,
            Refusal::StrayBit => 14,
            Refusal::AlreadyForward(_) => 15,
            Refusal::NotForward(_) => 16,
            Refusal::StillSampled(_) => 17,
            Refusal::StillForward(_) => 18,
            Refusal::TooManyPoints => 19,
            Refusal::Allowance => 20,
            Refusal::Tag => 21,
            Refusal::NoSlot => 22,
        }
    }

    // The paper's place: 0 unless the row names one.
    pub fn place(self) -> u64
        ensures { result ≡ place_of self }
    {
        match self {
            Refusal::Rate(point) => point,
            Refusal::Axis(axis)
            | Refusal::Coordinate(axis)
            | Refusal::AlreadyForward(axis)
            | Refusal::NotForward(axis)
            | Refusal::StillSampled(axis)
            | Refusal::StillForward(axis) => u64::from(axis),
            _ => 0,
        }
    }
}
