// Why a call gives no verdict.
ghost use Rattle.std.specs.Prelude.{◌≡◌};
ghost use Rattle.reasons.specs.Refusal.{refusal_number};

// Document 01's numbers 1 to 12, in their order and by its names, and those that tickets of document 02 add.
#[derive(Clone, Copy, PartialEq, Eq)]
pub enum Refusal {
    Settings = 1,
    Schedule = 2,
    Record = 3,
    Domain = 4,
    Short = 5,
    Horizon = 6,
    Entries = 7,
    Mismatch = 8,
    Uncovered = 9,
    Book = 10,
    Kept = 11,
    Full = 12,
    Twice = 13,
    Output = 14,
    Trail = 15,
    Forced = 17,
}

impl Refusal {
    pub fn number(self) -> u8
        ensures { result ≡ refusal_number self }
    {
        self as u8
    }
}
