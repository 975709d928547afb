//! The crash states of a trace that differ: of all sets of its micro-operations that a crash may
//! leave, the first of those that leave equal trees and equally many acknowledged lines. A set is
//! given by a row of bits, one for each place. Each error that isn't explained is that memory ran
//! out; then nothing is left of what the call had made.
//!
//! A micro-operation **wants** earlier ones without which nothing shows what it does: a write wants
//! what makes its file. A member of a set is **seen** if everything that it wants is seen; what
//! isn't seen changes nothing in what the set leaves. Sets of the places below some place are in
//! one **class** if the same is seen of both, and the same may still be added to both.
#![tactic(auto)]

mod classes;
mod columns;
mod different;
mod digest;
mod fault;
mod finding;
mod leaving;
pub mod members;
mod searching;
mod shapes;
mod under;
mod wanting;

pub use different::different_sets;
pub use fault::DifferentFault;
pub use under::different_under;
