ghost use Rattle.std.specs.Prelude.{◌≡◌, ◌||◌, nat_lt, not};

use crate::nodes::Slot;
use crate::running::Plan;
use orders::limits::Party;

// A call with its arguments, as a party begins it.
#[derive(Clone, Copy, Debug, PartialEq, Eq)]
pub enum Call<D> {
    Enter(Slot),
    Up,
    Leave,
    Read,
    Down(u8),
    Keep(Slot),
    Drop(Slot),
    Hand(Slot, Party),
    Fetch(Slot),
    Make(Plan<D>),
    Sweep,
}

// A walk as a party begins it: over the term of the slot's node, in the situation of these numbers.
#[derive(Clone, Copy, Debug, PartialEq, Eq)]
pub struct Walk {
    pub slot: Slot,
    pub range: i32,
    pub gear: i32,
    pub temperature: i32,
}

// What stands in the order of ended calls: a call or a walk.
#[derive(Clone, Copy, Debug, PartialEq, Eq)]
pub enum Asked<D> {
    AsksCall(Call<D>),
    AsksWalk(Walk),
}

// How long the lists are that a Begin or a Turn is given.
#[derive(Clone, Copy, Debug, PartialEq, Eq)]
pub struct Lengths {
    pub entries: usize,
    pub marks: usize,
    pub worths: usize,
}

impl Lengths {
    // A call is given the data list alone.
    pub fn of_call(entries: usize) -> Lengths
        ensures { result ≡ record { entries = entries; marks = 0; worths = 0 } }
    {
        Lengths {
            entries,
            marks: 0,
            worths: 0,
        }
    }

    // The data list has an entry for each node.
    pub fn covers_call(self, nodes: usize) -> bool
        ensures { result ≡ not (nat_lt self.entries nodes) }
    {
        self.entries >= nodes
    }

    // The data list has an entry for each node, and so have the marks and the worths that a walk notes.
    pub fn covers_walk(self, nodes: usize) -> bool
        ensures { result ≡ not (nat_lt self.entries nodes || (nat_lt self.marks nodes || nat_lt self.worths nodes)) }
    {
        self.covers_call(nodes) && self.marks >= nodes && self.worths >= nodes
    }
}

// A Begin or a Turn of a party; a walk's Turn is one of its own.
#[derive(Clone, Copy, Debug, PartialEq, Eq)]
pub enum Event<D> {
    Begins(Party, Asked<D>, Lengths),
    Turns(Party, Lengths),
    WalkTurns(Party, Lengths),
}
