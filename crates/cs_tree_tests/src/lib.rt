//! What every store of a tree does, tried on each kind: a plain one, and overlays over a plain one,
//! over a frozen one and over a crash state.
#![tactic(auto)]

#[cfg(test)]
mod tests;
