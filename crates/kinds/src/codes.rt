ghost use Rattle.std.specs.Prelude.{◌≡◌, ◌<◌};
ghost use Rattle.kinds.specs.Codes.{code_number, kids_taken, first_given};

use crate::kids::PerKid;
use std::error::Error;
use std::fmt;

// What a node of a shift map does, each with the number by which it goes in map data.
#[derive(Clone, Copy, Debug, PartialEq, Eq)]
pub enum Code {
    Number = 0,
    Range = 1,
    Gear = 2,
    Temperature = 3,
    Negated = 8,
    Sum = 16,
    Difference = 17,
    Smaller = 18,
    Larger = 19,
    Scaled = 20,
    Choose = 24,
    Held = 25,
}

// A number that is no listed code.
#[derive(Clone, Copy, Debug, PartialEq, Eq)]
pub struct UnlistedCode(pub u8);

// How many kids the codes 0 to 31 take.
const KIDS_TAKEN: [u8; 32] = [
    0, 0, 0, 0, 0, 0, 0, 0, 1, 1, 1, 1, 1, 1, 1, 1, 2, 2, 2, 2, 2, 2, 2, 2, 3, 3, 3, 3, 3, 3, 3, 3,
];

impl Code {
    // The number by which the code goes in map data.
    pub fn number(self) -> u8
        ensures value { result ≡ code_number self }
        ensures bound { result < 32 }
    {
        self as u8
    }

    // How many kids a node of this code has: its first ones.
    pub fn kids_taken(self) -> u8
        ensures { result ≡ kids_taken self }
    {
        KIDS_TAKEN[usize::from(self.number())]
    }
}

// The code of a number, if it is listed.
impl TryFrom<u8> for Code {
    type Error = UnlistedCode;

    ghost use Rattle.kinds.specs.Decoding.{Decodes};

    ghost try_from_gives = { Decodes };

    fn try_from(number: u8) -> Result<Code, UnlistedCode> {
        match number {
            0 => Ok(Code::Number),
            1 => Ok(Code::Range),
            2 => Ok(Code::Gear),
            3 => Ok(Code::Temperature),
            8 => Ok(Code::Negated),
            16 => Ok(Code::Sum),
            17 => Ok(Code::Difference),
            18 => Ok(Code::Smaller),
            19 => Ok(Code::Larger),
            20 => Ok(Code::Scaled),
            24 => Ok(Code::Choose),
            25 => Ok(Code::Held),
            _ => Err(UnlistedCode(number)),
        }
    }
}

impl fmt::Display for UnlistedCode {
    ghost use Rattle.std.specs.Prelude.{Some};
    ghost use Rattle.kinds.specs.Decoding.{unlisted_text};

    ghost output = { λ e. Some (unlisted_text e) };

    fn fmt<W: fmt::Write>(&self, f: &mut fmt::Formatter<W>) -> fmt::Result {
        write!(f, "no code is {}", self.0)
    }
}

impl Error for UnlistedCode {}

// Whether exactly the first kids are given, so many of them.
pub(crate) fn first_given(count: u8, given: PerKid<bool>) -> bool
    ensures { result ≡ first_given count given }
{
    given.first == (count >= 1) && given.second == (count >= 2) && given.third == (count >= 3)
}
