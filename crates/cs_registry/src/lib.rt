//! The published states of a scene, and the runs over them, for one thread. The lock that threads
//! take is in cs_shared_runs; making the states is in cs_publish.
#![tactic(auto)]

mod fault;
mod found;
mod held;
mod key;
mod states;

pub use cs_permit::FindFault;
pub use fault::PublishFault;
pub use found::Found;
pub use held::Held;
pub use key::RunKey;
pub use states::States;
