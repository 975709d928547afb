//! Making and publishing all states of a scene by several threads: in a new registry
//! (`publish_all`), or in one that other threads use meanwhile (`publish_into`,
//! `publish_own_into`). `crashfs serve` calls `publish_own_into`; no command calls the other two.
//! What a registry is and what it refuses is in cs_registry and cs_shared_runs.
#![tactic(auto)]

mod crew;
mod fault;
mod gate;
mod publishing;
mod publishing_into;
mod stage;

pub use fault::PublishAllFault;
pub use gate::{Gate, NoGate};
pub use publishing::publish_all;
pub use publishing_into::{publish_into, publish_own_into};
