ghost use Rattle.std.specs.Prelude.{◌≡◌};
ghost use Rattle.replay.specs.Stages.{answer_numbers, coded, told};

use crate::numbers::OnSheet;
use model::outcomes::{Answer, Outcome, Progress};
use model::shown::outcome_number;
use sheet::replies::Reply;

pub(crate) const MALFORMED: u8 = 90;

pub(crate) const NO_SHEET: u8 = 91;

pub(crate) const NO_STORE: u8 = 92;

// A reply that is a code alone.
pub(crate) fn code_alone(line: usize, code: u8) -> Reply
    ensures { result ≡ coded line code }
{
    Reply {
        line,
        code,
        x: 0,
        y: 0,
        z: 0,
    }
}

// The reply that tells an outcome.
pub(crate) fn reply_to<K: OnSheet>(line: usize, outcome: Outcome<K::Data, K::Worth>) -> Reply
    ensures { result ≡ told K.OnSheet.numbers line outcome }
{
    let code = outcome_number(&outcome);
    let (x, y, z) = match outcome {
        Ok(Progress::Ended(answer)) => values_of::<K>(answer),
        _ => (0, 0, 0),
    };
    Reply {
        line,
        code,
        x,
        y,
        z,
    }
}

// The three numbers by which an answer is told.
fn values_of<K: OnSheet>(answer: Answer<K::Data, K::Worth>) -> (i64, i64, i64)
    ensures { result ≡ answer_numbers K.OnSheet.numbers answer }
{
    match answer {
        Answer::Done => (0, 0, 0),
        Answer::AtNode(node) => (i64::from(node), 0, 0),
        Answer::Contents(node, data, _) => {
            let (first, second) = K::show_data(data);
            (i64::from(node), first, second)
        }
        Answer::Swept(node, receiver) => (i64::from(node), i64::from(receiver), 0),
        Answer::WorthIs(worth, size) => {
            let (first, second) = K::show_worth(worth);
            (first, second, i64::from(size))
        }
    }
}
