//! The plan of a trace: which of the states that a crash may leave can be asked for, and under
//! which numbers. A scene is a trace with its plan. docs/MODEL.md, "The plan", defines prefixes,
//! holes and picks.
#![tactic(auto)]

mod families;
pub mod fault;
pub mod listing;
pub mod members;
pub mod plan;
pub mod published;
pub mod recipe;
mod same;
pub mod scene;

pub use fault::{MakeFault, PlanFault, SceneFault};
pub use listing::Listing;
pub use plan::Plan;
pub use published::Published;
pub use recipe::{Places, Recipe};
pub use scene::Scene;
// The store of a state.
pub use cs_state::Built;
