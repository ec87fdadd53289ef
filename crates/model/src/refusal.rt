// The numbers of a refusal (document 01, "Refused"; document 02), each once. specs/Refusals has them for the definitions.
ghost use Rattle.std.specs.Prelude.{◌≡◌};
ghost use Rattle.model.specs.Refused.{number_of};

// Why a call or a set is refused.
#[derive(Clone, Copy, Debug, PartialEq, Eq)]
pub enum Refusal {
    BadAxes = 1,
    UnknownCommand = 2,
    CutShort = 3,
    NoBasicSet = 4,
    LateDivision = 5,
    BadDivisor = 6,
    OutOfRange = 7,
    NotAbsent = 8,
    TooMany = 9,
    OverLimit = 10,
    TableFull = 11,
    BadPoint = 12,
    BadLimit = 13,
    NoSuchSet = 14,
    OutOfPlace = 15,
    // 02, requests 2, 6, 8 and 12.
    BadFleet = 16,
    NoNumber = 17,
    BadName = 18,
    BadAxis = 19,
}

impl Refusal {
    // The number that C and the script's reader get.
    pub fn number(self) -> u32
        ensures { result ≡ number_of self }
    {
        self as u32
    }
}
