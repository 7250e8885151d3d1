ghost use Rattle.std.specs.Prelude.{IfOk, OnOk};
ghost use Rattle.std.specs.String.{string_bytes};
ghost use Rattle.replay.specs.Replays.{Adds, Replays};

use crate::held::answer;
use crate::numbers::OnSheet;
use crate::replies::{NO_SHEET, code_alone};
use kinds::maps::Maps;
use kinds::traces::Traces;
use orders::stride::Stride;
use session::session::Session;
use sheet::headings::{SheetOf, heading};
use sheet::reader::Reader;
use sheet::replies::write_names;
use std::alloc::{AllocError, Global};

// Carries out the lines of a sheet, and adds the reply to each.
fn replay_lines<K: OnSheet>(heap: Global, lines: &[u8], out: &mut String) -> Result<(), AllocError>
    ensures { OnOk result (Adds K.Kind K.OnSheet.numbers lines.now (string_bytes out.old) (string_bytes out.new)) }
{
    let mut held: Option<Session<K, Stride, Stride>> = None;
    let mut reader = Reader::new(lines);
    while let Some(line) = reader.next_line() {
        let reply = answer(&mut held, heap, line)?;
        reply.write(heap, out)?;
    }
    Ok(())
}

// The replies to a sheet: a line of names, and a line for each of its lines, whatever stands there. Only want of memory
// is an error.
pub fn replay(heap: Global, sheet: &[u8]) -> Result<String, AllocError>
    ensures { IfOk result (λ out. Replays sheet.now (string_bytes out)) }
{
    let mut out = String::new(heap);
    write_names(&mut out)?;
    match heading(sheet) {
        None => code_alone(0, NO_SHEET).write(heap, &mut out)?,
        Some((SheetOf::Maps, lines)) => replay_lines::<Maps>(heap, lines, &mut out)?,
        Some((SheetOf::Traces, lines)) => replay_lines::<Traces>(heap, lines, &mut out)?,
    }
    Ok(out)
}
