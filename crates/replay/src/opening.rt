ghost use Rattle.std.specs.Prelude.{MatchResult};
ghost use Rattle.replay.specs.Openings.{OpeningRefused, OpenedOnSheet};

use crate::requests::Opening;
use kinds::kind::Kind;
use orders::stride::Stride;
use session::session::Session;
use std::alloc::Global;
use store::errors::OpenError;
use store::limits::within_limits;

// Opens a store whose orders are strides: its numbers of nodes and parties are looked at first, then the strides.
#[tactic(auto, using(crate::proofs::Openings::opened_on_sheet))]
pub(crate) fn open<K: Kind>(
    heap: Global,
    opening: Opening,
) -> Result<Session<K, Stride, Stride>, OpenError>
    ensures { MatchResult result (λ s. OpenedOnSheet opening s) (λ e. OpeningRefused opening e) }
{
    let _ = within_limits(opening.nodes, opening.parties)?;
    let node_order = Stride::new(opening.nodes, opening.node_stride)?;
    let party_order = Stride::new(opening.parties, opening.party_stride)?;
    Session::open(
        heap,
        opening.nodes,
        opening.parties,
        node_order,
        party_order,
    )
}
