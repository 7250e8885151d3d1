// What a store holds of each node and each party, in plain lists.
use model::nodes::Kids;
use model::party::PartyRecord;
use model::words::Count;
use orders::limits::Party;

// The shared words of a node but its data, which lies in the caller's list.
#[derive(Clone, Copy, Debug, PartialEq, Eq)]
pub struct NodeWords {
    pub count: Count,
    pub lock: Party,
    pub kids: Kids,
}

// The records of all parties; party p's stands at p - 1.
#[derive(Debug, Drop)]
pub struct Table<D> {
    pub(crate) records: Vec<PartyRecord<D>>,
}

// The words of all nodes, node n's at n - 1, and the table of party records.
#[derive(Debug, Drop)]
pub struct Cells<D> {
    pub(crate) nodes: Vec<NodeWords>,
    pub(crate) table: Table<D>,
}
