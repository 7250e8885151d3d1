ghost use Rattle.std.specs.Prelude.{◌<◌, IfOk, IfSome};
ghost use Rattle.std.specs.String.{string_bytes};
ghost use Rattle.replay.specs.Replays.{Replays};
ghost use Rattle.sheet.specs.Headings.{most_bytes};

use crate::filling::fill;
use replay::replaying::replay;
use sheet::headings::MOST_BYTES;
use std::alloc::Global;
use std::io::{self, Read};

// The replies to the sheet that the input holds, however long it is.
pub(crate) fn replies_to<R: Read>(heap: Global, input: &mut R) -> io::Result<String>
    ensures { IfOk result (λ out. IfSome (R.remaining input.old) (λ sheet. Replays sheet (string_bytes out))) }
{
    let mut bytes = vec![in heap; 0; room_for_a_sheet()]?;
    let length = fill(input, &mut bytes)?;
    let replies = replay(heap, &bytes[..length])?;
    Ok(replies)
}

// More bytes than a sheet may have, so that one that is too long is seen to be.
fn room_for_a_sheet() -> usize
    ensures { most_bytes < result }
{
    MOST_BYTES + 1
}
