//! Carriage returns in a users file. They belong to the last field of their line, as every byte
//! does, and are seldom meant.
ghost use Rattle.std.specs.Prelude.{◌≡◌, ◌<◌, ◌↔◌, IsTrue, Some, length};
ghost use Rattle.cs_inputs.specs.Returns.{HasReturnAt, IsFirstReturn, return_text};

use std::fmt;

/// A note for the user: the line of this number ends with a carriage return.
#[derive(Clone, Copy, Debug, PartialEq, Eq)]
pub struct ReturnNote {
    /// From 1.
    pub line: usize,
}

impl fmt::Display for ReturnNote {
    ghost output = { λ note. Some (return_text note.line) };

    /// Writes the note, without `crashfs: ` and without a line feed.
    fn fmt<W: fmt::Write>(&self, f: &mut fmt::Formatter<W>) -> fmt::Result {
        let line = self.line;
        write!(
            f,
            "users line {line} ends with a carriage return, which belongs to its last field"
        )
    }
}

/// Whether there is a carriage return at that place, and a line feed after it. False at the last
/// byte.
fn has_return_at(bytes: &[u8], place: usize) -> bool
    requires { place < length bytes.now }
    ensures { IsTrue result ↔ HasReturnAt bytes.now place }
{
    match bytes.get(place + 1) {
        Some(next) => bytes[place] == b'\r' && *next == b'\n',
        None => false,
    }
}

/// The first line that ends with a carriage return, before its line feed; None if none does. Lines
/// count from 1. The bytes after the last line feed are no line here.
pub fn first_return(bytes: &[u8]) -> Option<ReturnNote>
    ensures { IsFirstReturn bytes.now result }
{
    let mut feeds = 0;
    for place in 0..bytes.len() {
        if has_return_at(bytes, place) {
            return Some(ReturnNote { line: feeds + 1 });
        }
        if bytes[place] == b'\n' {
            feeds += 1;
        }
    }
    None
}
