//! The options of `tar`.

/// The states from one number of the plan to another.
#[derive(Clone, Copy, Debug, PartialEq, Eq)]
pub struct StateRange {
    /// The first number, from 0.
    pub first: u32,
    /// The last number. If it is less than the first one, the range is empty.
    pub last: u32,
}

/// What `tar` writes.
#[derive(Debug, Drop)]
pub struct TarOptions {
    /// Which states are written, and what of them.
    pub states: States,
    /// Whether files with many zeros are written in pieces, without the zeros.
    pub sparse: bool,
}

/// Which states an archive has, by their numbers in the plan, and what of them.
#[derive(Debug, Drop)]
pub enum States {
    /// The state of that number. No text comes before its paths.
    One(u32),
    /// The states of these ranges, in this order. Each tree is below its number, as in `7/`.
    Each(Vec<StateRange>),
    /// What differs between the start tree and the states of these ranges, in this order: for each
    /// state a file `7.missing` of the start tree's paths that it doesn't have, with a NUL after
    /// each, and below `7/` its entries that are new or differ.
    Changes(Vec<StateRange>),
}
