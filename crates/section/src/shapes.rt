// Why a call is turned down.
ghost use Rattle.std.specs.Prelude.{◌≡◌};
ghost use Rattle.section.specs.profile.Numbers.{refusal_number};

// In the order of their numbers, 1 to 24; whoever turns a call down says which it is.
#[derive(Clone, Copy, Debug, PartialEq, Eq)]
pub enum Refusal {
    OddCount,
    TooFewVertices,
    TooManyVertices,
    NotFinite,
    TooLarge,
    RadiusBelowAxis,
    SpaceTooSmall,
    TooFewKept,
    NegativeRadius,
    ReversedBounds,
    SkewCylinder,
    StoreLength,
    BadLink,
    WrongKind,
    EmptyStore,
    TooManyRecords,
    TooManyBodies,
    BadSettings,
    BadSteps,
    BadSeed,
    BadLoad,
    SettersEdit,
    StoreFull,
    NoSuchRecord,
}

impl Refusal {
    // The number that stands for it, in the table of what is turned down.
    pub fn number(self) -> u32
        ensures { result ≡ refusal_number self }
    {
        match self {
            Refusal::OddCount => 1,
            Refusal::TooFewVertices => 2,
            Refusal::TooManyVertices => 3,
            Refusal::NotFinite => 4,
            Refusal::TooLarge => 5,
            Refusal::RadiusBelowAxis => 6,
            Refusal::SpaceTooSmall => 7,
            Refusal::TooFewKept => 8,
            Refusal::NegativeRadius => 9,
            Refusal::ReversedBounds => 10,
            Refusal::SkewCylinder => 11,
            Refusal::StoreLength => 12,
            Refusal::BadLink => 13,
            Refusal::WrongKind => 14,
            Refusal::EmptyStore => 15,
            Refusal::TooManyRecords => 16,
            Refusal::TooManyBodies => 17,
            Refusal::BadSettings => 18,
            Refusal::BadSteps => 19,
            Refusal::BadSeed => 20,
            Refusal::BadLoad => 21,
            Refusal::SettersEdit => 22,
            Refusal::StoreFull => 23,
            Refusal::NoSuchRecord => 24,
        }
    }
}
