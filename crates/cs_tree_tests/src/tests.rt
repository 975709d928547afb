//! The start tree of the worked examples in each kind of store, read and changed as any tree; and
//! what a library says of scenes and their states that no command prints.

mod calls;
mod changes;
mod frozen;
mod layers;
mod listings;
mod moved;
mod reads;
mod refusals;
mod runs;
mod same;
mod scenes;
mod shown;
mod start;
mod states;
mod steps;
