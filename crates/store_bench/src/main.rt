//! What is below the server, timed: traces that are read, trees, states, and files of the largest
//! size. Run by hand with the word `time`, each row says how long its work takes, and whether it is
//! within its bound.
#![tactic(auto)]

mod fourth;
mod large;
mod levels;
mod ordinary;
mod reading;
mod states;
mod store;
mod subject;
mod trees;
mod works;

use crate::fourth::fourth_version;
use crate::large::large_files;
use crate::levels::levels;
use crate::reading::traces;
use crate::states::states;
use crate::trees::trees;
use std::{env, io};

/// Times each sort of work, or with no argument runs each on small counts and prints no time.
fn main(rt: HostRuntime) -> io::Result<()> {
    let timed = env::args(&rt)?.count() > 1;
    // first, so that the memory that the states take was never used before
    states(&rt, timed)?;
    fourth_version(&rt, timed)?;
    traces(&rt, timed)?;
    trees(&rt, timed)?;
    levels(&rt, timed)?;
    large_files(&rt, timed)
}
