//! Runs that threads share, and workers that publish: values from outside.
#![tactic(auto)]

#[cfg(test)]
mod tests;
