//! A rename that the server refused because the new name is taken, and how far it has come since.
//! Its **source** is the file that the client renames, its **target** what has the new name.

use cs_wire::{RMessage, Stat, TMessage};

/// A rename that was refused because its new name is taken: what the later steps need of it.
#[derive(Drop)]
pub struct Rename {
    /// The tag of the client's request; all requests of the rename have it.
    pub tag: u16,
    /// The client's fid of the source.
    pub fid: u32,
    /// The client's wstat: a new name, and "don't touch" in every other field.
    pub stat: Stat,
    /// The server's refusal. The client gets it if the rename can't be done.
    pub refusal: RMessage,
    /// Fids of the client, one of which may be on the source's directory; the last is the
    /// likeliest.
    pub directories: Vec<u32>,
}

/// The source, which isn't a directory, as its stat shows it.
#[derive(Drop)]
pub struct File {
    /// The name that it has now.
    pub name: String,
    /// Its number, the path of its qid (intro(5)).
    pub number: u64,
}

/// The state of a rename: the request whose reply it waits for. What the rename has changed so far:
/// nothing before `Again`.
#[derive(Drop)]
pub enum Renaming {
    /// The Tstat of the source, for its name and number.
    Source(Rename),
    /// The walk to the source in the directory of the fid `directory`; the first `left` fids
    /// weren't tried yet.
    Directory {
        rename: Rename,
        file: File,
        directory: u32,
        left: usize,
    },
    /// The walk to the new name in the source's directory.
    Target(Rename),
    /// The removal of the target, a file.
    Removal(Rename),
    /// The client's own Twstat again, after the target was removed.
    Again,
    /// The clunk of the fid on the target, which is a directory and isn't removed.
    Release(Rename),
}

/// What is sent next for a rename.
#[derive(Drop)]
pub enum Step {
    /// The server gets this request, and the rename continues with the reply to it.
    Ask(Renaming, TMessage<'static>),
    /// The client gets this reply, and the rename is over.
    Answer(RMessage),
}
