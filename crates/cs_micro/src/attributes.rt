//! How the list of a trace's micro-operations prints a `set_attr`: whose owner, group and
//! permissions are set, and to what.
ghost use Rattle.std.specs.Prelude.{Some};
ghost use Rattle.cs_micro.specs.Texts.{rights_text, target_text};

use cs_trace::{Rights, Target};
use std::fmt;

/// What a `set_attr` is of, to be printed: a file by its number, or a directory by its path.
#[derive(Clone, Copy)]
pub struct TargetText<'a>(pub &'a Target);

impl fmt::Display for TargetText<'_> {
    ghost output = { λ text. Some (target_text text.0.now) };

    /// Prints `file` and the file's number, or `dir` and the path at the operation's line.
    fn fmt<W: fmt::Write>(&self, f: &mut fmt::Formatter<W>) -> fmt::Result {
        match self.0 {
            Target::File(file) => write!(f, "file {file}"),
            Target::Directory { path, .. } => write!(f, "dir {path}"),
        }
    }
}

/// Rights, to be printed: the permissions as three octal digits (as `json` of cs_list prints them,
/// too), then the owner and the group.
#[derive(Clone, Copy)]
pub struct RightsText<'a>(pub &'a Rights);

impl fmt::Display for RightsText<'_> {
    ghost output = { λ text. Some (rights_text text.0.now) };

    /// Prints the three with a blank between two of them, as in `644 ann users`.
    fn fmt<W: fmt::Write>(&self, f: &mut fmt::Formatter<W>) -> fmt::Result {
        let Rights {
            owner,
            group,
            permissions,
        } = self.0;
        // The permissions are nine bits: three for each digit.
        let (first, second, third) = (permissions / 64, permissions / 8 % 8, permissions % 8);
        write!(f, "{first}{second}{third} {owner} {group}")
    }
}
