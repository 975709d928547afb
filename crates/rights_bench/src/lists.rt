//! Users files of as many lines as are asked for.

use cs_users::Users;
use std::alloc::{AllocError, Global};

/// How many lines a users file has, and how many of its users the group of its first line has as
/// members.
#[derive(Clone, Copy)]
pub struct Size {
    pub lines: u64,
    pub members: u64,
}

impl Size {
    /// The place of a member's line after the group's: members are all over the file.
    pub fn member(self, index: u64) -> u64 {
        let others = self.lines.saturating_sub(1);
        let apart = others / self.members.max(1);
        index % self.members.max(1) * apart.max(1)
    }
}

/// The name of the user at that place after the group's line.
pub fn name(alloc: Global, place: u64) -> Result<String, AllocError> {
    format!(in alloc; "user{place:05}")
}

/// The line of the group `staff`.
fn group_line(alloc: Global, text: &mut String, size: Size) -> Result<(), AllocError> {
    text.push_str("0:staff::")?;
    for index in 0..size.members {
        if index > 0 {
            text.push_str(",")?;
        }
        text.push_str(name(alloc, size.member(index))?.as_str())?;
    }
    text.push_str("\n")
}

/// The users file of that size: the group, and then the others.
fn text_of(alloc: Global, size: Size) -> Result<String, AllocError> {
    let mut text = String::new(alloc);
    group_line(alloc, &mut text, size)?;
    for place in 0..size.lines.saturating_sub(1) {
        let name = name(alloc, place)?;
        writeln!(text, "{place}:{name}::")?;
    }
    Ok(text)
}

/// The users of a file of that size.
pub fn list(alloc: Global, size: Size) -> Option<Users> {
    let text = text_of(alloc, size).ok()?;
    Users::read(alloc, text.as_str().as_bytes()).ok()
}
