//! What the commands take: the bytes of the files that the command line named, the scene and the
//! users that they spell, the faults that end a command, and how text is printed.
#![tactic(auto)]

mod ending;
mod fault;
mod inputs;
mod pick_line;
mod picks;
mod picks_fault;
mod printing;
mod returns;

pub use ending::exit_status;
pub use fault::ProgramFault;
pub use inputs::{Inputs, scene_of, scene_with, users_of};
pub use picks::read_picks;
pub use picks_fault::PicksFault;
pub use printing::{print, print_to};
pub use returns::{ReturnNote, first_return};
