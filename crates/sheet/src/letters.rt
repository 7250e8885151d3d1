ghost use Rattle.std.specs.Prelude.{◌≡◌};
ghost use Rattle.sheet.specs.Letters.{letter_of, letters, named_in};

// What a line asks for, which its second field names by one letter.
#[derive(Clone, Copy, Debug, PartialEq, Eq)]
pub enum Letter {
    NewStore,
    Make,
    Read,
    Walk,
    Turns,
    Keep,
    Drop,
    Hand,
    Fetch,
    Enter,
    Down,
    Up,
    Leave,
    Sweep,
}

impl Letter {
    // The letter that a part is, if it is one letter and nothing more.
    pub fn of(part: &[u8]) -> Option<Letter>
        ensures { result ≡ letter_of part.now }
    {
        if part.len() != 1 {
            return None;
        }
        named(part[0])
    }
}

fn named(byte: u8) -> Option<Letter>
    ensures { result ≡ named_in letters byte }
{
    match char::from(byte) {
        'N' => Some(Letter::NewStore),
        'M' => Some(Letter::Make),
        'R' => Some(Letter::Read),
        'W' => Some(Letter::Walk),
        'T' => Some(Letter::Turns),
        'K' => Some(Letter::Keep),
        'D' => Some(Letter::Drop),
        'H' => Some(Letter::Hand),
        'F' => Some(Letter::Fetch),
        'E' => Some(Letter::Enter),
        'V' => Some(Letter::Down),
        'U' => Some(Letter::Up),
        'L' => Some(Letter::Leave),
        'S' => Some(Letter::Sweep),
        _ => None,
    }
}
