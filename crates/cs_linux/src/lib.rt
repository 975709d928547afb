//! What Linux's own client of 9P2000 needs of a server. An error has a text that the client knows.
//! A wstat asks only for what the client's user asked for. A rename onto a name that is taken
//! removes the file of that name, as the client expects. Nothing here sends or keeps anything;
//! cs_serve does, for connections of `serve --client linux`.
#![tactic(auto)]

mod directories;
mod errno;
mod meaning;
mod rename;
mod renaming;
mod replies;
mod requests;
mod rules;

pub use directories::{Directories, KEPT_FIDS, directory_of};
pub use errno::Errno;
pub use meaning::request_of_linux;
pub use rename::{File, Rename, Renaming, Step};
pub use renaming::renaming_of;
pub use replies::reply_to_linux;
pub use requests::{OWN_FID, QTDIR, is_rename};
pub use rules::rule_of;
