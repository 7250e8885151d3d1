use crate::letters::Letter;

// The eight fields of a line, in their order.
#[derive(Clone, Copy, Debug, PartialEq, Eq)]
pub struct Values {
    pub party: i32,
    pub call: Letter,
    pub a: i32,
    // code or severity
    pub fourth: i32,
    // number or hour
    pub fifth: i32,
    pub d: i32,
    pub e: i32,
    pub f: i32,
}

// A line by its number, and its values; none where it is malformed.
#[derive(Clone, Copy, Debug, PartialEq, Eq)]
pub struct Line {
    pub number: usize,
    pub values: Option<Values>,
}
