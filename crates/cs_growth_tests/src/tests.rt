//! Calls whose growths are refused in turn: each row has the name of the call that it makes; and
//! what clients of a world get if it is out of memory.

mod attaches;
mod calls;
mod copies;
mod dialogues;
mod endings;
mod fids;
mod journals;
mod making;
mod messages;
mod ports;
mod registries;
mod rows;
mod runs;
mod scene;
mod sessions;
mod shared;
mod shared_registries;
mod shared_runs;
mod shown;
mod start;
mod stores;
mod sweeps;
mod talking;
mod worlds;
