// Why a call was declined, and at which line of the listing.
ghost use Rattle.std.specs.Prelude.{◌≡◌};
ghost use Rattle.listing.specs.Reasons.{number_of};

// The number of a refusal is `reason as u8`, that of its case, which a `From` would spell out; no other number of it stands
// in the code.
#[derive(Clone, Copy, PartialEq, Eq)]
pub enum Reason {
    TextTooLong = 1,
    ByteNotPermitted = 2,
    NoForm = 3,
    NumberOutOfRange = 4,
    TooMany = 5,
    Missing = 6,
    TargetMissing = 7,
    NoProgram = 8,
    PlaceMissing = 9,
    AlreadySo = 10,
    RunListTooShort = 11,
    NoPlacement = 12,
    PlaceNotKept = 13,
    TooFewRows = 14,
    NoneEnough = 15,
    BufferTooShort = 16,
}

// Lines are counted from 1; a refusal that concerns no line has line 0, as it is printed.
#[derive(Clone, Copy, PartialEq, Eq)]
pub struct Refusal {
    pub reason: Reason,
    pub line: u16,
}

impl Reason {
    pub fn number(self) -> u8
        ensures { result ≡ number_of self }
    {
        self as u8
    }

    pub fn at(self, line: u16) -> Refusal
        ensures { result ≡ record { reason = self; line = line } }
    {
        Refusal { reason: self, line }
    }

    // A refusal that concerns no line.
    pub fn refusal(self) -> Refusal
        ensures { result ≡ record { reason = self; line = 0 } }
    {
        self.at(0)
    }
}
