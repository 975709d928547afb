//! Traces as they are read, what they break into, which sets of that a file system of each profile
//! may leave, and what the states are. Values from outside, but for states: these are compared with
//! plain stores.

mod broken_up;
mod compared;
mod faults;
mod lines;
mod moved;
mod operations;
mod orders;
mod picks;
mod shown;
mod starts;
mod steps;
