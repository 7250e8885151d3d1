use crate::nodes::Node;

// Where others may lay a node for a party that is making one.
#[derive(Clone, Copy, Debug, PartialEq, Eq)]
pub enum Tray {
    Closed,
    Open,
    Holding(Node),
}
