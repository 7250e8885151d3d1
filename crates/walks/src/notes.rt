ghost use Rattle.std.specs.Prelude.{◌≡◌, ℕ, ◌<◌, ◌≤◌, true, false, ◌≢◌, length};
ghost use Rattle.model.specs.Entries.{nth};
ghost use Rattle.model.specs.Fun.{upd};
ghost use Rattle.model.specs.Walks.{first_unmarked, marked, noted};
ghost use Rattle.walks.specs.Notes.{SameLists, has_entries, marks_alone, marks_of, notes_of, worked_out, worths_alone};

use crate::marks::{clear, count_marked, first_unmarked};
use crate::worths::worth_at;
use kinds::kids::{Kid, PerKid};
use kinds::kind::Kind;
use model::nodes::{Kids, Node};
use model::outcomes::TermSize;
use model::words::NodeRead;

// A walk's notes in two lists that its caller lends: which nodes it has marked, and what each is worth.
#[derive(Drop)]
pub struct Notes<'a, W> {
    pub marks: &'a mut [bool],
    pub worths: &'a mut [W],
}

impl<'a, W: Copy> Notes<'a, W> {
    // Takes the marks off the nodes of the store.
    pub fn clear(&mut self, nodes: Node)
        ensures lists { SameLists self.old self.new }
        ensures cleared { (n : ℕ) → marks_of nodes self.new.marks.now n ≡ false }
        ensures further { (n : ℕ) → nodes < n → nth false self.new.marks.now n ≡ nth false self.old.marks.now n }
        ensures worths { self.new.worths.now ≡ self.old.worths.now }
    {
        clear(self.marks, nodes);
    }

    // The kid that the walk goes down to next.
    pub fn first_unmarked(&self, nodes: Node, kids: Kids) -> Option<Kid>
        ensures { result ≡ first_unmarked (marks_alone nodes self.now.marks.now) kids }
    {
        first_unmarked(self.marks, nodes, kids)
    }

    // How many different nodes the walk has marked.
    pub fn count_marked(&self, nodes: Node) -> TermSize
        ensures { result ≡ marked nodes (marks_of nodes self.now.marks.now) }
    {
        count_marked(self.marks, nodes)
    }

    // The worth that is noted of the node.
    pub fn worth_at<K: Kind<Worth = W>>(&self, n: Node) -> W
        ensures { result ≡ nth K.Kind.none self.now.worths.now n }
    {
        worth_at::<K>(self.worths, n)
    }

    // Works out what the node is worth from what is noted of its kids, notes it and marks the node. Tells whether it
    // did: a number that is no node, or a list that is too short, changes nothing.
    pub fn set_down<K: Kind<Worth = W>>(
        &mut self,
        nodes: Node,
        n: Node,
        read: NodeRead<K::Data>,
    ) -> bool
        ensures lists { SameLists self.old self.new }
        ensures whether { result ≡ has_entries nodes self.old.marks.now self.old.worths.now n }
        ensures noted { result ≡ true → notes_of K.Kind.none nodes self.new.marks.now self.new.worths.now ≡ noted (notes_of K.Kind.none nodes self.old.marks.now self.old.worths.now) n (worked_out K.Kind.worth K.Kind.none (notes_of K.Kind.none nodes self.old.marks.now self.old.worths.now) read) }
        ensures others { (m : ℕ) → (m ≢ n) → (nth false self.new.marks.now m ≡ nth false self.old.marks.now m) × (nth K.Kind.none self.new.worths.now m ≡ nth K.Kind.none self.old.worths.now m) }
        ensures same { result ≡ false → (self.new.marks.now ≡ self.old.marks.now) × (self.new.worths.now ≡ self.old.worths.now) }
    {
        if !self.has_entries(nodes, n) {
            return false;
        }
        let worth = self.work_out::<K>(read);
        self.note(n, worth);
        true
    }

    // Marks the node and notes its worth.
    #[tactic(auto, using(crate::proofs::Noting::entry_written))]
    fn note(&mut self, n: Node, worth: W)
        requires { (1 ≤ n) × (n ≤ length self.old.marks.now) × (n ≤ length self.old.worths.now) }
        ensures lists { SameLists self.old self.new }
        ensures mark { nth false self.new.marks.now ≡ upd (nth false self.old.marks.now) n true }
        ensures worth { (blank : W) → nth blank self.new.worths.now ≡ upd (nth blank self.old.worths.now) n worth }
    {
        let i = usize::from(n - 1);
        self.marks[i] = true;
        self.worths[i] = worth;
    }

    // Whether the number is a node, and each node has an entry on both lists.
    fn has_entries(&self, nodes: Node, n: Node) -> bool
        ensures { result ≡ has_entries nodes self.now.marks.now self.now.worths.now n }
    {
        let all = usize::from(nodes);
        (1..=nodes).contains(&n) && all <= self.marks.len() && all <= self.worths.len()
    }

    // The blank stands for a missing kid, whose number is 0.
    fn work_out<K: Kind<Worth = W>>(&self, read: NodeRead<K::Data>) -> W
        ensures { result ≡ worked_out K.Kind.worth K.Kind.none (worths_alone K.Kind.none self.now.worths.now) read }
    {
        let kids = PerKid {
            first: self.worth_at::<K>(read.kids.first),
            second: self.worth_at::<K>(read.kids.second),
            third: self.worth_at::<K>(read.kids.third),
        };
        K::work_out(read.given, read.situation, kids)
    }
}
