ghost use Rattle.std.specs.Prelude.{◌≡◌};
ghost use Rattle.sheet.specs.Columns.{following, no_columns, values_taken, with_part};

use crate::letters::Letter;
use crate::lines::Values;
use crate::values::value;

// Where the next field of a line goes.
#[derive(Clone, Copy)]
pub(crate) enum Place {
    Party,
    Call,
    A,
    Fourth,
    Fifth,
    D,
    E,
    F,
    End,
    // a field more than there are places
    BehindEnd,
}

impl Place {
    fn following(self) -> Place
        ensures { result ≡ following self }
    {
        match self {
            Place::Party => Place::Call,
            Place::Call => Place::A,
            Place::A => Place::Fourth,
            Place::Fourth => Place::Fifth,
            Place::Fifth => Place::D,
            Place::D => Place::E,
            Place::E => Place::F,
            Place::F => Place::End,
            Place::End | Place::BehindEnd => Place::BehindEnd,
        }
    }
}

// The fields of a line as they come, each read for its place.
#[derive(Clone, Copy)]
pub(crate) struct Columns {
    next: Place,
    party: Option<i32>,
    call: Option<Letter>,
    a: Option<i32>,
    fourth: Option<i32>,
    fifth: Option<i32>,
    d: Option<i32>,
    e: Option<i32>,
    f: Option<i32>,
}

impl Columns {
    pub(crate) fn new() -> Columns
        ensures { result ≡ no_columns }
    {
        Columns {
            next: Place::Party,
            party: None,
            call: None,
            a: None,
            fourth: None,
            fifth: None,
            d: None,
            e: None,
            f: None,
        }
    }

    // Takes the next field.
    pub(crate) fn take(&mut self, part: &[u8])
        ensures { self.new ≡ with_part self.old part.now }
    {
        let place = self.next;
        self.next = place.following();
        match place {
            Place::Party => self.party = value(part),
            Place::Call => self.call = Letter::of(part),
            Place::A => self.a = value(part),
            Place::Fourth => self.fourth = value(part),
            Place::Fifth => self.fifth = value(part),
            Place::D => self.d = value(part),
            Place::E => self.e = value(part),
            Place::F => self.f = value(part),
            Place::End | Place::BehindEnd => {}
        }
    }

    // The values of the line, if each of its fields was good and no more came.
    pub(crate) fn values(&self) -> Option<Values>
        ensures { result ≡ values_taken self.now }
    {
        let Place::End = self.next else {
            return None;
        };
        Some(Values {
            party: self.party?,
            call: self.call?,
            a: self.a?,
            fourth: self.fourth?,
            fifth: self.fifth?,
            d: self.d?,
            e: self.e?,
            f: self.f?,
        })
    }
}
