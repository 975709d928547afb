//! Where the directories of a trace are after each of its moves of directories, and the order of
//! the paths that its entries then have. By P12 the members of an allowed set are the first so many
//! of the moves, so a state needs one order for each number of moves. Each error here is that
//! memory ran out; then what the call had made is dropped.
#![tactic(auto)]

mod climbing;
mod moves;
pub mod passing;
pub mod path_order;
pub mod path_orders;
pub mod positions;

pub use path_order::PathOrder;
pub use path_orders::PathOrders;
