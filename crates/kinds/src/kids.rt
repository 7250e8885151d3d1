// The three kids of a node, and what is said of each of them.
ghost use Rattle.std.specs.Prelude.{◌≡◌};
ghost use Rattle.kinds.specs.Kids.{kid_at, put_kid};

use refusals::Refusal;

// Which of a node's three kids.
#[derive(Clone, Copy, Debug, PartialEq, Eq)]
pub enum Kid {
    First,
    Second,
    Third,
}

// One thing for each of the three kids: whether it is given, which node it is, what it is worth.
#[derive(Clone, Copy, Debug, PartialEq, Eq)]
pub struct PerKid<T> {
    pub first: T,
    pub second: T,
    pub third: T,
}

// Kids are numbered from 1.
impl TryFrom<u8> for Kid {
    type Error = Refusal;

    ghost use Rattle.kinds.specs.Kids.{KidNumbered};

    ghost try_from_gives = { KidNumbered };

    fn try_from(number: u8) -> Result<Kid, Refusal> {
        match number {
            1 => Ok(Kid::First),
            2 => Ok(Kid::Second),
            3 => Ok(Kid::Third),
            _ => Err(Refusal::NoSuchSlot),
        }
    }
}

impl<T: Copy> PerKid<T> {
    // The same for all three.
    pub fn all(x: T) -> PerKid<T>
        ensures { result ≡ record { first = x; second = x; third = x } }
    {
        PerKid {
            first: x,
            second: x,
            third: x,
        }
    }

    // What stands at the kid.
    pub fn at(self, k: Kid) -> T
        ensures { result ≡ kid_at self k }
    {
        match k {
            Kid::First => self.first,
            Kid::Second => self.second,
            Kid::Third => self.third,
        }
    }

    // Puts it at the kid, and leaves the two others.
    pub fn put(&mut self, k: Kid, x: T)
        ensures { self.new ≡ put_kid self.old k x }
    {
        match k {
            Kid::First => self.first = x,
            Kid::Second => self.second = x,
            Kid::Third => self.third = x,
        }
    }
}
