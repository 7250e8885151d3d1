ghost use Rattle.std.specs.Prelude.{Some};
ghost use Rattle.model.specs.PlaceTexts.{place_text};

use crate::nodes::Node;
use kinds::kids::Kid;
use std::fmt;

// Where a Make or a Sweep stands: what its next step does, with the node that it works at, the kid position, and the
// kid that it has in hand.
#[derive(Clone, Copy, Debug, PartialEq, Eq)]
pub enum Place {
    OpenTray,
    ReadTray,
    LookForNode,
    LockNode(Node),
    Recheck(Node),
    UnlockAndGoBack(Node),
    ReadKid(Node, Kid),
    ClearKid(Node, Kid, Node),
    UncountKid(Node, Kid, Node),
    Claim(Node),
    Unlock(Node),
    Offer(Node),
    KeepForOneself(Node),
    GiveBack(Node),
    CloseTray(Node),
    WriteData(Node),
    CountKid(Node, Kid),
    LinkKid(Node, Kid, Node),
}

// What the next step is to do.
impl fmt::Display for Place {
    ghost output = { λ place. Some (place_text place) };

    fn fmt<W: fmt::Write>(&self, f: &mut fmt::Formatter<W>) -> fmt::Result {
        f.write_str(match self {
            Place::OpenTray => "open its tray",
            Place::ReadTray => "read its tray",
            Place::LookForNode => "look for a node",
            Place::LockNode(_) => "lock the node",
            Place::Recheck(_) => "recheck the node's count",
            Place::UnlockAndGoBack(_) => "unlock the node and go back",
            Place::ReadKid(_, _) => "read a kid",
            Place::ClearKid(_, _, _) => "clear the kid",
            Place::UncountKid(_, _, _) => "uncount the kid",
            Place::Claim(_) => "claim the node",
            Place::Unlock(_) => "unlock the node",
            Place::Offer(_) => "offer the node",
            Place::KeepForOneself(_) => "keep the node for itself",
            Place::GiveBack(_) => "give the node back",
            Place::CloseTray(_) => "close its tray",
            Place::WriteData(_) => "write the node's data",
            Place::CountKid(_, _) => "count a kid",
            Place::LinkKid(_, _, _) => "link the kid",
        })
    }
}
