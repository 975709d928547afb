//! Traces, their micro-operations, the sets of these that a crash may leave, and the states of the
//! sets: values from outside.
#![tactic(auto)]

#[cfg(test)]
mod tests;
