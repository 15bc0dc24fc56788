// A table's image, for code that reads or writes one: its form, a row, and what a source of rows is; and why an entry
// refuses. What reads images are `fields` and `rows`.
#![tactic(auto)]

pub mod form; // form.rt: the places of the fields, and the codes in a row
pub mod reason; // reason.rt: why an entry refuses, and where
pub mod source; // source.rt: where a search finds the rows that leave a state

// A row as it stands in an image; `motion` is its move. Its codes stay bytes and are no enums: `symbol_fits`, `counter_fits` and `step` of
// `machine` and `moved` of `cells` promise what they do with every byte, also with one that no well-formed image has.
#[derive(Clone, Copy)]
pub struct Row {
    pub from: usize,
    pub symbol: u8,
    pub test: u8,
    pub motion: u8,
    pub change: u8,
    pub to: usize,
}
