//! The users file, users(6): which users are known, the members and the leader of each group, and
//! the rights that a user has on a file.
#![tactic(auto)]

pub mod fault;
mod groups;
mod keeping;
mod marks;
mod reading;
pub mod rights;
mod row;
mod rows;
pub mod users;

pub use fault::UsersFault;
pub use rights::{Right, has_bit, has_right, owns};
pub use users::Users;
