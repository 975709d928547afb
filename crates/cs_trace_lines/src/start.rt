//! Reads the start lines from their fields: what is there before the first operation. Each function
//! moves the texts that it needs out of the fields. After a fault, some may be moved out; the
//! caller drops the fields.
ghost use Rattle.std.specs.Prelude.{◌≡◌, is_some, true};
ghost use Rattle.cs_trace_lines.specs.Faults.{IsRead};
ghost use Rattle.cs_trace_lines.specs.Lines.{kind_in, start_key_count};
ghost use Rattle.cs_trace_lines.specs.Values.{claims_in};
ghost use Rattle.cs_trace_lines.specs.Lines.{start_line_in, start_under, start_with};
ghost use Rattle.cs_trace_lines.specs.Reading.{field_values};
ghost use Rattle.cs_trace_lines.specs.Said.{content_of, line_value};
ghost use Rattle.cs_trace_lines.specs.declared.start.StartKind.TheVariants.{File, Link, Symlink};
ghost use Rattle.cs_trace_lines.specs.declared.version.Version.TheVariants.{First};

use crate::fault::LineFault;
use crate::fields::Fields;
use crate::line::{Line, StartContent, StartLine};
use crate::parts::bytes_by_parts;
use crate::sparse::SparseBytes;
use crate::values::{
    has_only, take_claims, take_content, take_symlink_claims, take_target, take_text, text_of,
};
use crate::version::Version;
use std::alloc::Global;

/// What a start line adds, by the name under `start`.
#[derive(Clone, Copy, Debug, PartialEq, Eq)]
pub(crate) enum StartKind {
    /// `dir`: a directory.
    Directory,
    /// `file`: a regular file.
    File,
    /// `link`: one more path of a regular file of the start (a hard link).
    Link,
    /// `symlink`: a symbolic link.
    Symlink,
}

impl StartKind {
    /// The kind with this name: `dir`, `file`, from version 3 on `link`, and in version 4
    /// `symlink`. None for any other name.
    fn of(version: Version, name: &str) -> Option<StartKind>
        ensures { result ≡ kind_in version name.now }
    {
        match name {
            "dir" => Some(StartKind::Directory),
            "file" => Some(StartKind::File),
            "link" if version.is_third_or_later() => Some(StartKind::Link),
            "symlink" if version.is_fourth() => Some(StartKind::Symlink),
            _ => None,
        }
    }

    /// How many keys a start line of this kind has: `start` and those that `read_start` reads. A
    /// `note` isn't counted. A file in parts has one more, since `length` and `parts` are in place
    /// of `bytes`. `fields` are those of the line.
    fn key_count(self, fields: &Fields) -> usize
        ensures { result ≡ start_key_count (field_values fields.now) self }
    {
        match self {
            StartKind::Link => 3,
            StartKind::Directory | StartKind::Symlink => 5,
            StartKind::File if fields.parts.is_some() => 7,
            StartKind::File => 6,
        }
    }
}

/// Reads the path, the owner, the group and the mode of the start line of a directory, or of a file
/// with this content. One that is missing or has a wrong value is Syntax.
fn read_start_entry(fields: &mut Fields, content: StartContent) -> Result<Line, LineFault>
    ensures { IsRead line_value
        (start_with (claims_in (field_values fields.old)) (field_values fields.old).path
        (content_of content)) result }
{
    Ok(Line::Start(StartLine {
        path: take_text(&mut fields.path)?,
        claims: take_claims(fields)?,
        content,
    }))
}

/// Reads the start line of a file in parts. Before version 4 it is Syntax. The other faults are
/// those of `bytes_by_parts` and `read_start_entry`.
fn read_start_parts(alloc: Global, version: Version, fields: &mut Fields) -> Result<Line, LineFault>
    requires { is_some (field_values fields.old).parts ≡ true }
    ensures { IsRead line_value (start_under version (field_values fields.old) File) result }
{
    if !version.is_fourth() {
        return Err(LineFault::Syntax);
    }
    let bytes = bytes_by_parts(alloc, version, &fields.length, &mut fields.parts)?;
    read_start_entry(fields, StartContent::File(bytes))
}

/// Reads the start line of a file: in parts, or with its bytes under the key `bytes` or, from
/// version 3 on, `text`. A field that is missing or has a wrong value is Syntax.
fn read_start_file(alloc: Global, version: Version, fields: &mut Fields) -> Result<Line, LineFault>
    ensures { IsRead line_value (start_under version (field_values fields.old) File) result }
{
    if fields.parts.is_some() {
        return read_start_parts(alloc, version, fields);
    }
    let bytes = take_content(version, &mut fields.bytes, &mut fields.text)?;
    read_start_entry(fields, StartContent::File(SparseBytes::of_bytes(bytes)))
}

/// Reads the start line of a symbolic link: the path, the owner, the group and the target; it has
/// no mode. A field that is missing or has a wrong value is Syntax. The contract names version 1,
/// since the fields are read in the same way in all versions.
fn read_start_symlink(fields: &mut Fields) -> Result<Line, LineFault>
    ensures { IsRead line_value (start_under First (field_values fields.old) Symlink) result }
{
    let target = take_target(&mut fields.target)?;
    Ok(Line::Start(StartLine {
        path: take_text(&mut fields.path)?,
        claims: take_symlink_claims(fields)?,
        content: StartContent::Symlink(target),
    }))
}

/// Reads the start line of a hard link: its path, and another path of the file, `from`. A field
/// that is missing or isn't a text is Syntax. The contract names version 1, since the fields are
/// read in the same way in all versions.
fn read_start_link(fields: &mut Fields) -> Result<Line, LineFault>
    ensures { IsRead line_value (start_under First (field_values fields.old) Link) result }
{
    Ok(Line::StartLink {
        path: take_text(&mut fields.path)?,
        from: take_text(&mut fields.from)?,
    })
}

/// Reads the start line of this kind. A field that is missing or has a wrong value is Syntax. The
/// caller has checked that there are no other keys. `StartKind::key_count` counts the keys that are
/// read here, and `start`: change both together.
fn read_start(
    alloc: Global,
    version: Version,
    kind: StartKind,
    fields: &mut Fields,
) -> Result<Line, LineFault>
    ensures { IsRead line_value (start_under version (field_values fields.old) kind) result }
{
    match kind {
        StartKind::Directory => read_start_entry(fields, StartContent::Directory),
        StartKind::File => read_start_file(alloc, version, fields),
        StartKind::Link => read_start_link(fields),
        StartKind::Symlink => read_start_symlink(fields),
    }
}

/// The start line that these fields make. If the version has no kind with the name under `start`,
/// it is UnknownStart, whatever the other keys are. A `start` that isn't a text, a key too many or
/// too few, or a value that its key can't have, is Syntax. Memory if an allocation for parts fails.
pub(crate) fn start_line_in(
    alloc: Global,
    version: Version,
    fields: &mut Fields,
) -> Result<Line, LineFault>
    ensures { IsRead line_value (start_line_in version (field_values fields.old)) result }
{
    let Some(kind) = StartKind::of(version, text_of(&fields.start)?) else {
        return Ok(Line::UnknownStart);
    };
    if !has_only(version, kind.key_count(fields), fields) {
        return Err(LineFault::Syntax);
    }
    read_start(alloc, version, kind, fields)
}
