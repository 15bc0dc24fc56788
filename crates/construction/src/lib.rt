// From a program to its table, in definitions, that the two agree, and what compiling promises. The compiler writes what stands here.
#![tactic(auto)]

// What compiling a program gives beside its image: how many bytes that has, and the table's states and rows.
#[derive(Clone, Copy, Debug, PartialEq, Eq)]
pub struct Sizes {
    pub bytes: usize,
    pub states: usize,
    pub rows: usize,
}
