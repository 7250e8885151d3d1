ghost use Rattle.std.specs.Prelude.{◌≡◌, ℕ, ◌<◌, false};
ghost use Rattle.model.specs.Entries.{nth};
ghost use Rattle.model.specs.Walks.{first_unmarked, marked, unmarked};
ghost use Rattle.walks.specs.Notes.{marks_alone, marks_of};

use kinds::kids::Kid;
use model::entries::entry;
use model::nodes::{Kids, Node};
use model::outcomes::TermSize;

// Takes the marks off the nodes of the store. What stands on the list beyond them is another's, and stays.
pub fn clear(marks: &mut [bool], nodes: Node)
    ensures cleared { (n : ℕ) → marks_of nodes marks.new n ≡ false }
    ensures further { (n : ℕ) → nodes < n → nth false marks.new n ≡ nth false marks.old n }
{
    let end = usize::from(nodes).min(marks.len());
    marks[..end].fill(false);
}

// The kid that the walk goes down to next. Which worths are noted does not matter to it.
pub fn first_unmarked(marks: &[bool], nodes: Node, kids: Kids) -> Option<Kid>
    ensures { result ≡ first_unmarked (marks_alone nodes marks.now) kids }
{
    if is_unmarked(marks, nodes, kids.first) {
        Some(Kid::First)
    } else if is_unmarked(marks, nodes, kids.second) {
        Some(Kid::Second)
    } else if is_unmarked(marks, nodes, kids.third) {
        Some(Kid::Third)
    } else {
        None
    }
}

// How many different nodes the walk has marked.
#[tactic(auto, using(crate::proofs::Noting::marked_counted))]
pub fn count_marked(marks: &[bool], nodes: Node) -> TermSize
    ensures { result ≡ marked nodes (marks_of nodes marks.now) }
{
    let end = usize::from(nodes).min(marks.len());
    let noted = marks[..end].iter();
    noted.map(|marked| TermSize::from(*marked)).sum()
}

// A missing kid is not unmarked.
fn is_unmarked(marks: &[bool], nodes: Node, n: Node) -> bool
    ensures { result ≡ unmarked (marks_alone nodes marks.now) n }
{
    n != 0 && !is_marked(marks, nodes, n)
}

fn is_marked(marks: &[bool], nodes: Node, n: Node) -> bool
    ensures { result ≡ marks_of nodes marks.now n }
{
    n <= nodes && entry(marks, n, false)
}
