//! Worlds, scripts, lists, and connections that threads serve: values from outside.
#![tactic(auto)]

#[cfg(test)]
mod tests;
