ghost use Rattle.std.specs.Prelude.{◌≡◌, Ok};
ghost use Rattle.model.specs.Steps.{after_kid, ended_by, ending, going, stuck};
ghost use Rattle.model.specs.declared.outcomes.Answer.TheVariants.{Swept};
ghost use Rattle.model.specs.declared.outcomes.Progress.TheVariants.{StillRunning};
ghost use Rattle.model.specs.declared.running.Reading.TheVariants.{ReadNothing};
ghost use Rattle.model.specs.declared.running.Running.TheVariants.{Idle, WalkReads};
ghost use Rattle.model.specs.declared.words.Change.TheVariants.{Lengthens, Stays};
ghost use Rattle.model.specs.declared.words.Told.TheVariants.{Settles, Tells};
ghost use Rattle.model.specs.declared.words.Word.TheVariants.{NoWord};
ghost use Rattle.step.specs.Moving.{moved};

use crate::kid::next_kid;
use kinds::gearbox::Situation;
use kinds::kids::Kid;
use model::nodes::Node;
use model::outcomes::{Answer, Outcome, Progress};
use model::party::PartyRecord;
use model::place::Place;
use model::running::{Reading, Running};
use model::words::{Change, Decision, NodeRead, Told, Word};
use orders::limits::Party;

// The call ends, and nothing but that has changed.
pub(crate) fn stop<D: Copy, W: Copy>(outcome: Outcome<D, W>) -> Decision<D, W>
    ensures { result ≡ ended_by outcome }
{
    Decision {
        word: Word::NoWord,
        change: Change::Stays,
        next: Running::Idle,
        told: Told::Tells(outcome),
    }
}

// The word is of another sort than the step reads.
pub(crate) fn stuck<D: Copy, W: Copy>() -> Decision<D, W>
    ensures { result ≡ stuck }
{
    stop(Ok(Progress::StillRunning))
}

// The call goes on.
pub(crate) fn go<D: Copy, W: Copy>(word: Word<D>, next: Running<D>) -> Decision<D, W>
    ensures { result ≡ going word next }
{
    Decision {
        word,
        next,
        ..stuck()
    }
}

// The running job goes on at another place. Inlined, and the job left where it stands in the copy, since most steps of a
// Make end here.
#[inline(always)]
pub(crate) fn go_to<D: Copy, W: Copy>(
    word: Word<D>,
    own: &PartyRecord<D>,
    place: Place,
) -> Decision<D, W>
    ensures { result ≡ going word (moved own.now.running place) }
{
    let mut next = own.running;
    if let Running::Works(_, at) = &mut next {
        *at = place;
    }
    go(word, next)
}

// A walk goes down to the kid.
pub(crate) fn go_down<D: Copy, W: Copy>(t: Situation, kid: Node) -> Decision<D, W>
    ensures { result ≡ record { word = NoWord; change = Lengthens kid; next = WalkReads t ReadNothing; told = Tells (Ok StillRunning) } }
{
    Decision {
        change: Change::Lengthens(kid),
        ..go(Word::NoWord, Running::WalkReads(t, Reading::ReadNothing))
    }
}

// The call ends with an answer.
pub(crate) fn end<D: Copy, W: Copy>(
    word: Word<D>,
    change: Change,
    answer: Answer<D, W>,
) -> Decision<D, W>
    ensures { result ≡ ending word change answer }
{
    Decision {
        word,
        change,
        ..stop(Ok(Progress::Ended(answer)))
    }
}

// A Sweep ends.
pub(crate) fn end_sweep<D: Copy, W: Copy>(word: Word<D>, n: Node, taker: Party) -> Decision<D, W>
    ensures { result ≡ ending word Stays (Swept n taker) }
{
    end(word, Change::Stays, Answer::Swept(n, taker))
}

// A walk has read its node.
pub(crate) fn settle<D: Copy, W: Copy>(read: NodeRead<D>) -> Decision<D, W>
    ensures { result ≡ record { word = NoWord; change = Stays; next = Idle; told = Settles read } }
{
    Decision {
        told: Told::Settles(read),
        ..stuck()
    }
}

// After a kid the next, after the third the claim.
pub(crate) fn after_kid(n: Node, k: Kid) -> Place
    ensures { result ≡ after_kid n k }
{
    match next_kid(k) {
        Some(next) => Place::ReadKid(n, next),
        None => Place::Claim(n),
    }
}
