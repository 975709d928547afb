//! Sets of places that an order allows: all of them in order, how many there are, and the one with
//! a number. A place is a number from 0. The order says which earlier places each place needs, and
//! a set is allowed if it has all that its places need. What is at a place isn't known here: in the
//! other crates it is a micro-operation.
#![tactic(auto)]

mod count;
mod draw;
mod fault;
pub mod laws;
mod needed;
mod next;
mod numbers;
pub mod order;
mod reach;
pub mod row;
pub mod sets;

pub use count::FUTURES;
pub use fault::CountFault;
pub use numbers::Numbers;
pub use order::Order;
pub use row::Row;
pub use sets::Sets;
