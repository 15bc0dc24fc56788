// Where a search finds the rows that leave a state: in bytes that hold rows, from a first place on, so many, so far apart.

// What the bytes are. An image shows all its rows, whatever the state. (An enum, so that one search serves every source: with a type
// parameter it would be proved and compiled once for each.)
#[derive(Clone, Copy)]
pub enum Source {
    Image,
}

// From a first place on, so many rows, so far apart.
#[derive(Clone, Copy)]
pub struct Range {
    pub first: usize,
    pub many: usize,
    pub apart: usize,
}
