//! Each call that can run out of memory, and messages to a world, with the first growth refused,
//! then the second, and so on.
#![tactic(auto)]

#[cfg(test)]
mod tests;
