ghost use Rattle.std.specs.Prelude.{◌≡◌};
ghost use Rattle.model.specs.Shown.{node_of, outcome_number, progress_number, receiver_of, term_size_of};

use crate::nodes::Node;
use crate::outcomes::{Answer, Outcome, Progress, TermSize};
use orders::limits::Party;

// The number by which an outcome goes: the refusal's, 0 for begun or ended, 100 for still running.
pub fn outcome_number<D, W>(outcome: &Outcome<D, W>) -> u8
    ensures { result ≡ outcome_number outcome.now }
{
    match outcome {
        Ok(progress) => progress.number(),
        Err(refusal) => refusal.number(),
    }
}

impl<D, W> Progress<D, W> {
    // 0 for begun or ended, 100 for still running.
    pub fn number(&self) -> u8
        ensures { result ≡ progress_number self.now }
    {
        match self {
            Progress::Begun => 0,
            Progress::StillRunning => 100,
            Progress::Ended(_) => 0,
        }
    }
}

impl<D, W> Answer<D, W> {
    // The node that the answer names, 0 where it names none.
    pub fn node(&self) -> Node
        ensures { result ≡ node_of self.now }
    {
        match self {
            Answer::AtNode(n) => *n,
            Answer::Contents(n, _, _) => *n,
            Answer::Swept(n, _) => *n,
            Answer::Done | Answer::WorthIs(_, _) => 0,
        }
    }

    // The party that took a swept node, 0 where there is none.
    pub fn receiver(&self) -> Party
        ensures { result ≡ receiver_of self.now }
    {
        match self {
            Answer::Swept(_, q) => *q,
            _ => 0,
        }
    }

    // How many different nodes a walk met, 0 for any other call.
    pub fn term_size(&self) -> TermSize
        ensures { result ≡ term_size_of self.now }
    {
        match self {
            Answer::WorthIs(_, m) => *m,
            _ => 0,
        }
    }
}
