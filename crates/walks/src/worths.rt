ghost use Rattle.std.specs.Prelude.{◌≡◌};
ghost use Rattle.model.specs.Entries.{nth};

use kinds::kind::Kind;
use model::entries::entry_at;
use model::nodes::Node;

// The worth that is noted of the node; the blank for 0 and for a node that the list has no entry for.
pub fn worth_at<K: Kind>(worths: &[K::Worth], n: Node) -> K::Worth
    ensures { result ≡ nth K.Kind.none worths.now n }
{
    match entry_at(worths, n) {
        Some(worth) => *worth,
        None => K::blank(),
    }
}
