// Why a making or a call is turned down: one enum for the whole project, each case with its fixed number.
#![tactic(auto)]

ghost use Rattle.std.specs.Prelude.{◌≡◌, Some};
ghost use Rattle.refusals.specs.Numbers.{number_of};
ghost use Rattle.refusals.specs.Shown.{refusal_text};

use std::error::Error;
use std::fmt;

#[derive(Clone, Copy, Debug, PartialEq, Eq)]
pub enum Refusal {
    // a count is outside its limits
    OutsideLimits = 1,
    // a search order's stride or card is bad
    BadOrder = 2,
    // a search order is made for another number
    OrderOfAnotherSize = 3,
    // no such party, or no such receiver
    NoSuchParty = 4,
    // no such slot or kid
    NoSuchSlot = 5,
    // a list is shorter than the store has nodes
    ShortList = 6,
    // data does not fit the kids given
    DataDoesNotFit = 7,
    // range, gear or temperature is outside its limits
    BadSituation = 8,
    // the party is running a call or walking
    Busy = 11,
    // there is no call, or no walk, to turn
    NothingToTurn = 12,
    SlotEmpty = 13,
    // the slot to fill is not empty
    SlotFilled = 14,
    NoTrail = 15,
    // a trail stands, or was entered at the slot
    TrailStands = 16,
    // no kid there
    NoKid = 17,
    InboxFull = 18,
    InboxEmpty = 19,
}

impl Refusal {
    // The number of the refusal, which never changes between releases.
    pub fn number(self) -> u8
        ensures { result ≡ number_of self }
    {
        self as u8
    }
}

impl Error for Refusal {}

impl fmt::Display for Refusal {
    ghost output = { λ e. Some (refusal_text e) };

    fn fmt<W: fmt::Write>(&self, f: &mut fmt::Formatter<W>) -> fmt::Result {
        write!(f, "refused with {}", self.number())
    }
}
