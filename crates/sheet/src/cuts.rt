ghost use Rattle.std.specs.Prelude.{◌≡◌};
ghost use Rattle.sheet.specs.Fields.{IsCut, lines_ended};

// What ends a part.
#[derive(Clone, Copy, Debug, PartialEq, Eq)]
pub(crate) enum Ending {
    Space,
    LineEnd,
    SheetEnd,
}

impl Ending {
    // How many lines it ends.
    pub(crate) fn lines(self) -> usize
        ensures { result ≡ lines_ended self }
    {
        match self {
            Ending::LineEnd => 1,
            Ending::Space | Ending::SheetEnd => 0,
        }
    }
}

// A text, cut behind its first part.
#[derive(Clone, Copy)]
pub(crate) struct Cut<'a> {
    pub(crate) part: &'a [u8],
    pub(crate) ending: Ending,
    pub(crate) after: &'a [u8],
}

impl<'a> Cut<'a> {
    pub(crate) fn first(text: &'a [u8]) -> Cut<'a>
        ensures { IsCut text.now result.part.now result.ending result.after.now }
    {
        match text.iter().position(|b| *b == b' ' || *b == b'\n') {
            None => Cut {
                part: text,
                ending: Ending::SheetEnd,
                after: &text[text.len()..],
            },
            Some(end) => Cut {
                part: &text[..end],
                ending: if text[end] == b' ' {
                    Ending::Space
                } else {
                    Ending::LineEnd
                },
                after: &text[end + 1..],
            },
        }
    }
}
