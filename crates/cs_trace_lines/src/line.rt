//! The kinds of lines, and how the text of a line is read as one of them.
ghost use Rattle.std.specs.Prelude.{◌≡◌, IfErr, IfOk, None, Some, option_and_then};
ghost use Rattle.serde_json.specs.Find.{as_object};
ghost use Rattle.serde_json.specs.Read.{read};
ghost use Rattle.serde_json.specs.View.{members_view};
ghost use Rattle.cs_trace_lines.specs.Faults.{IsRead};
ghost use Rattle.cs_trace_lines.specs.Lines.{line_in, line_of};
ghost use Rattle.cs_trace_lines.specs.Values.{is_blank};
ghost use Rattle.cs_trace_lines.specs.Reading.{field_values};
ghost use Rattle.cs_trace_lines.specs.Said.{line_value};
ghost use Rattle.cs_trace_lines.specs.declared.fault.LineFault.TheVariants.{Syntax};

use crate::fault::LineFault;
use crate::fields::{Fields, members_of};
use crate::header::header_in;
use crate::operation::operation_in;
use crate::sparse::SparseBytes;
use crate::start::start_line_in;
use crate::version::Version;
use serde_json::{Map, Value};
use std::alloc::Global;

/// What a line says. Its paths, owners and groups are texts, which aren't checked yet.
#[derive(Drop)]
pub enum Line {
    /// The header: the version, and the root's owner, group and permissions.
    Header(Version, Claims),
    /// A file, a symbolic link or a directory at the start.
    Start(StartLine),
    /// One more path, `path`, of the file at the start that has the path `from`.
    StartLink { path: String, from: String },
    /// An operation of the trace's version.
    Operation(OperationLine),
    /// A start line of a kind that the version doesn't have. Its other keys aren't looked at.
    UnknownStart,
    /// An operation that the version doesn't have. Its other keys aren't looked at.
    UnknownOperation,
}

/// Owner, group and permissions as a line has them, before the two names are checked.
#[derive(Drop)]
pub struct Claims {
    /// The name of the owner, as a text.
    pub owner: String,
    /// The name of the group, as a text.
    pub group: String,
    /// The nine bits of three octal digits.
    pub permissions: u16,
}

/// The start line of a file, a symbolic link or a directory.
#[derive(Drop)]
pub struct StartLine {
    /// Its path, as a text.
    pub path: String,
    /// Its owner, group and permissions.
    pub claims: Claims,
    /// What it is, with its bytes or target.
    pub content: StartContent,
}

/// What a start line makes, with what is in it.
#[derive(Drop)]
pub enum StartContent {
    /// A directory, which is empty at first.
    Directory,
    /// A file, with its bytes.
    File(SparseBytes),
    /// A symbolic link, with its target: 1 to `TARGET_BYTES` bytes without NUL.
    Symlink(String),
}

/// What a chmod or a chown sets.
#[derive(Drop)]
pub enum Change {
    /// The permissions, of a chmod.
    Mode(u16),
    /// The owner and the group, of a chown.
    Owner { owner: String, group: String },
}

/// What the line of an operation says. Paths are texts; offsets, lengths and sizes are in bytes.
#[derive(Drop)]
pub enum OperationLine {
    /// A new file at the path.
    Creat {
        path: String,
        claims: Claims,
    },
    /// A new directory at the path.
    Mkdir {
        path: String,
        claims: Claims,
    },
    /// A new symbolic link at the path, with this target. Its line has no mode: the permissions are
    /// 777.
    Symlink {
        path: String,
        claims: Claims,
        target: String,
    },
    /// The path of a file or a symbolic link is removed.
    Unlink {
        path: String,
    },
    /// The directory at the path is removed.
    Rmdir {
        path: String,
    },
    /// What is at `from` is moved to `to`.
    Rename {
        from: String,
        to: String,
    },
    /// One more path, `to`, of the file at `from` (a hard link).
    Link {
        from: String,
        to: String,
    },
    /// The bytes are written into the file at the path, from the offset on.
    Write {
        path: String,
        offset: u64,
        bytes: Vec<u8>,
    },
    /// The file gets the size `size`, which is `length` in the line.
    Truncate {
        path: String,
        size: u64,
    },
    /// A chmod or a chown of what is at the path.
    SetAttr {
        path: String,
        change: Change,
    },
    /// A sync of the file or directory at the path.
    Fsync {
        path: String,
    },
    /// A sync of a file's bytes and its size, but not of its owner, group and mode.
    Fdatasync {
        path: String,
    },
    /// A sync of `length` bytes of a file from `offset` on, and of its size.
    FsyncRange {
        path: String,
        offset: u64,
        length: u64,
    },
    /// A sync of everything.
    Sync,
    /// The application acknowledges the text to its users.
    Say {
        text: String,
    },
}

/// Whether the line is empty or has only JSON's blanks: spaces, tabs and carriage returns. The
/// reader of a trace skips such a line, but counts it.
pub fn is_blank(line: &str) -> bool
    ensures { result ≡ is_blank line.now }
{
    line.as_bytes()
        .iter()
        .all(|byte| *byte == b' ' || *byte == b'\t' || *byte == b'\r')
}

/// The members of the JSON object that a line spells. A text that isn't JSON, or that spells a
/// value of another kind, is Syntax; Memory if an allocation fails.
fn members_in(alloc: Global, text: &str) -> Result<Map<String, Value>, LineFault>
    ensures { IsRead (λ members. members_view members.entries)
        (option_and_then as_object (read text.now)) result }
{
    match Value::from_str(alloc, text) {
        Ok(value) => members_of(value),
        Err(error) => {
            if error.is_memory() {
                return Err(LineFault::Memory);
            }
            Err(LineFault::Syntax)
        }
    }
}

/// The line that these fields make: a header if they have `trace`, a start line if they have
/// `start`, an operation if they have `op`. None of these keys, or more than one, is Syntax; the
/// other faults are those of `header_in`, `start_line_in` and `operation_in`. Texts are moved out
/// of the fields, also before a fault.
fn line_of(alloc: Global, version: Version, fields: &mut Fields) -> Result<Line, LineFault>
    ensures { IsRead line_value (line_of version (field_values fields.old)) result }
{
    match (&fields.trace, &fields.start, &fields.op) {
        (Some(_), None, None) => header_in(fields),
        (None, Some(_), None) => start_line_in(alloc, version, fields),
        (None, None, Some(_)) => operation_in(version, fields),
        _ => Err(LineFault::Syntax),
    }
}

/// The line that a text spells in a trace of this version; Syntax if it spells none, and Memory if
/// an allocation fails. Its paths, owner and group aren't checked. A header, which says its own
/// version, is read in the same way whatever `version` is. Of two equal keys the last one counts.
#[tactic(auto, unfolding(crate::specs::Lines::line_in))]
pub fn read_line(alloc: Global, version: Version, text: &str) -> Result<Line, LineFault>
    ensures read { IfOk result (λ line. line_in version text.now ≡ Some (line_value line)) }
    ensures fault { IfErr result (λ fault. fault ≡ Syntax → line_in version text.now ≡ None) }
{
    let members = members_in(alloc, text)?;
    let mut fields = Fields::new();
    fields.put_members(members);
    line_of(alloc, version, &mut fields)
}
