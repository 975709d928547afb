//! Calls on runs, journals and the registry of runs: values from outside.
#![tactic(auto)]

#[cfg(test)]
mod tests;
