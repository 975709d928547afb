//! What calls answer, what a journal keeps of them, and which runs are found; names, paths, users
//! and texts, of which a library says more than commands print.

mod answers;
mod asks;
mod audits;
mod blocks;
mod copies;
mod endings;
mod journals;
mod linux;
mod names;
mod paths;
mod printing;
mod registries;
mod side;
mod users;
