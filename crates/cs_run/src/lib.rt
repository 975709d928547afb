//! What each call does to a run's tree and its opens, and its answer. The rules that deny calls are
//! in cs_permit, the journal of a run in cs_journal.
#![tactic(auto)]

mod acting;
pub mod answer;
mod blocks;
mod closing;
pub mod counted;
mod counting;
mod creating;
pub mod laws;
mod opening;
pub mod opens;
mod page;
mod reading;
mod removing;
mod stating;
pub mod turn;
mod walking;
mod writing;
mod wstating;

pub use acting::{act, closed_open_number};
pub use answer::{Answer, Data, FileStat, Outcome, Walk};
pub use closing::act_close;
pub use counted::CountedRun;
pub use counting::greatest_version;
pub use creating::act_create;
pub use cs_permit::{
    AttachCall, Call, CloseCall, CreateCall, OpenCall, ReadCall, RemoveCall, StatCall, WalkCall,
    WriteCall, WstatCall,
};
pub use opening::act_open;
pub use opens::Opens;
pub use reading::read;
pub use removing::act_remove;
pub use turn::Turn;
pub use walking::walk;
pub use writing::act_write;
pub use wstating::act_wstat;
