ghost use Rattle.std.specs.Prelude.{◌≡◌, ◌++◌, OnErr, OnOk, Some, List};
ghost use Rattle.std.specs.String.{string_bytes};
ghost use Rattle.sheet.specs.Replies.{names_line, reply_line, reply_text};

use std::alloc::{AllocError, Global};
use std::fmt;

const NAMES: &str = "line code x y z\n";

// What is answered to one line of values.
#[derive(Clone, Copy, Debug, PartialEq, Eq)]
pub struct Reply {
    // the number of the line, from 1
    pub line: usize,
    pub code: u8,
    pub x: i64,
    pub y: i64,
    pub z: i64,
}

// Adds the line of names, which comes before the first reply.
pub fn write_names(out: &mut String) -> Result<(), AllocError>
    ensures ok { OnOk result (string_bytes out.new ≡ string_bytes out.old ++ names_line) }
    ensures err { OnErr result (string_bytes out.new ≡ string_bytes out.old) }
{
    out.push_str(NAMES)
}

impl Reply {
    // Adds the reply's line. For want of memory nothing is added.
    pub fn write(&self, alloc: Global, out: &mut String) -> Result<(), AllocError>
        ensures ok { OnOk result (string_bytes out.new ≡ string_bytes out.old ++ reply_line self.now) }
        ensures err { OnErr result (string_bytes out.new ≡ string_bytes out.old) }
    {
        let line = format!(in alloc; "{self}\n")?;
        out.push_str(line.as_str())
    }
}

impl fmt::Display for Reply {
    ghost output = { λ reply. Some (reply_text reply) };

    fn fmt<W: fmt::Write>(&self, f: &mut fmt::Formatter<W>) -> fmt::Result {
        write!(
            f,
            "{} {} {} {} {}",
            self.line, self.code, self.x, self.y, self.z
        )
    }
}
