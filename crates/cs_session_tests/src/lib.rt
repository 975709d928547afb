//! Messages, fids, connections and streams: values from outside.
#![tactic(auto)]

#[cfg(test)]
mod tests;
