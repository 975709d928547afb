//! Reads the operations from the fields of their lines. Each function moves the texts that it needs
//! out of the fields. A field that is missing or has a wrong value is Syntax; some texts may be
//! moved out then, and the caller drops the fields. Only a write depends on the version once the
//! verb is known, so the other contracts name version 1.
ghost use Rattle.std.specs.Prelude.{◌≡◌};
ghost use Rattle.cs_trace_lines.specs.Faults.{IsRead};
ghost use Rattle.cs_trace_lines.specs.Lines.{operation_in, operation_of};
ghost use Rattle.cs_trace_lines.specs.Reading.{field_values};
ghost use Rattle.cs_trace_lines.specs.Said.{line_value, operation_value};
ghost use Rattle.cs_trace_lines.specs.declared.verb.Verb.TheVariants as verb;
ghost use Rattle.cs_trace_lines.specs.declared.version.Version.TheVariants.{First};

use crate::fault::LineFault;
use crate::fields::Fields;
use crate::line::{Change, Line, OperationLine};
use crate::values::{
    has_only, mode_in, take_claims, take_content, take_symlink_claims, take_target, take_text,
    text_of, whole_number_in,
};
use crate::verb::Verb;
use crate::version::Version;

/// Reads a creat: the path, the owner, the group and the mode of a new file.
fn read_creat(fields: &mut Fields) -> Result<OperationLine, LineFault>
    ensures { IsRead operation_value
        (operation_of First verb.Creat (field_values fields.old)) result }
{
    Ok(OperationLine::Creat {
        path: take_text(&mut fields.path)?,
        claims: take_claims(fields)?,
    })
}

/// Reads a mkdir: the path, the owner, the group and the mode of a new directory.
fn read_mkdir(fields: &mut Fields) -> Result<OperationLine, LineFault>
    ensures { IsRead operation_value
        (operation_of First verb.Mkdir (field_values fields.old)) result }
{
    Ok(OperationLine::Mkdir {
        path: take_text(&mut fields.path)?,
        claims: take_claims(fields)?,
    })
}

/// Reads a symlink: the path, the owner, the group and the target of a new symbolic link. Its line
/// has no mode.
fn read_symlink(fields: &mut Fields) -> Result<OperationLine, LineFault>
    ensures { IsRead operation_value
        (operation_of First verb.Symlink (field_values fields.old)) result }
{
    Ok(OperationLine::Symlink {
        path: take_text(&mut fields.path)?,
        target: take_target(&mut fields.target)?,
        claims: take_symlink_claims(fields)?,
    })
}

/// Reads an unlink: the path that is removed.
fn read_unlink(fields: &mut Fields) -> Result<OperationLine, LineFault>
    ensures { IsRead operation_value
        (operation_of First verb.Unlink (field_values fields.old)) result }
{
    Ok(OperationLine::Unlink {
        path: take_text(&mut fields.path)?,
    })
}

/// Reads an rmdir: the path of a directory.
fn read_rmdir(fields: &mut Fields) -> Result<OperationLine, LineFault>
    ensures { IsRead operation_value
        (operation_of First verb.Rmdir (field_values fields.old)) result }
{
    Ok(OperationLine::Rmdir {
        path: take_text(&mut fields.path)?,
    })
}

/// Reads a rename: the paths before and after it.
fn read_rename(fields: &mut Fields) -> Result<OperationLine, LineFault>
    ensures { IsRead operation_value
        (operation_of First verb.Rename (field_values fields.old)) result }
{
    Ok(OperationLine::Rename {
        from: take_text(&mut fields.from)?,
        to: take_text(&mut fields.to)?,
    })
}

/// Reads a link: a path `from` of a file, and one more path `to` for it.
fn read_link(fields: &mut Fields) -> Result<OperationLine, LineFault>
    ensures { IsRead operation_value
        (operation_of First verb.Link (field_values fields.old)) result }
{
    Ok(OperationLine::Link {
        from: take_text(&mut fields.from)?,
        to: take_text(&mut fields.to)?,
    })
}

/// Reads a write: the path, the offset, and the bytes under the key `bytes` or, from version 3 on,
/// `text`.
fn read_write(version: Version, fields: &mut Fields) -> Result<OperationLine, LineFault>
    ensures { IsRead operation_value
        (operation_of version verb.Write (field_values fields.old)) result }
{
    Ok(OperationLine::Write {
        path: take_text(&mut fields.path)?,
        offset: whole_number_in(&fields.offset)?,
        bytes: take_content(version, &mut fields.bytes, &mut fields.text)?,
    })
}

/// Reads a truncate: the path and the file's new size in bytes, under the key `length`.
fn read_truncate(fields: &mut Fields) -> Result<OperationLine, LineFault>
    ensures { IsRead operation_value
        (operation_of First verb.Truncate (field_values fields.old)) result }
{
    Ok(OperationLine::Truncate {
        path: take_text(&mut fields.path)?,
        size: whole_number_in(&fields.length)?,
    })
}

/// Reads a chmod: the path and the new permissions.
fn read_chmod(fields: &mut Fields) -> Result<OperationLine, LineFault>
    ensures { IsRead operation_value
        (operation_of First verb.Chmod (field_values fields.old)) result }
{
    Ok(OperationLine::SetAttr {
        path: take_text(&mut fields.path)?,
        change: Change::Mode(mode_in(&fields.mode)?),
    })
}

/// Reads a chown: the path, the new owner and the new group.
fn read_chown(fields: &mut Fields) -> Result<OperationLine, LineFault>
    ensures { IsRead operation_value
        (operation_of First verb.Chown (field_values fields.old)) result }
{
    Ok(OperationLine::SetAttr {
        path: take_text(&mut fields.path)?,
        change: Change::Owner {
            owner: take_text(&mut fields.owner)?,
            group: take_text(&mut fields.group)?,
        },
    })
}

/// Reads an fsync: the path of a file or a directory.
fn read_fsync(fields: &mut Fields) -> Result<OperationLine, LineFault>
    ensures { IsRead operation_value
        (operation_of First verb.Fsync (field_values fields.old)) result }
{
    Ok(OperationLine::Fsync {
        path: take_text(&mut fields.path)?,
    })
}

/// Reads an fdatasync: the path of a file.
fn read_fdatasync(fields: &mut Fields) -> Result<OperationLine, LineFault>
    ensures { IsRead operation_value
        (operation_of First verb.Fdatasync (field_values fields.old)) result }
{
    Ok(OperationLine::Fdatasync {
        path: take_text(&mut fields.path)?,
    })
}

/// Reads an fsync_range: the path, the offset and the length, in bytes.
fn read_fsync_range(fields: &mut Fields) -> Result<OperationLine, LineFault>
    ensures { IsRead operation_value
        (operation_of First verb.FsyncRange (field_values fields.old)) result }
{
    Ok(OperationLine::FsyncRange {
        path: take_text(&mut fields.path)?,
        offset: whole_number_in(&fields.offset)?,
        length: whole_number_in(&fields.length)?,
    })
}

/// Reads a say: the text that the application acknowledges.
fn read_say(fields: &mut Fields) -> Result<OperationLine, LineFault>
    ensures { IsRead operation_value
        (operation_of First verb.Say (field_values fields.old)) result }
{
    Ok(OperationLine::Say {
        text: take_text(&mut fields.text)?,
    })
}

/// Reads the operation of this verb. A field that is missing or has a wrong value is Syntax. The
/// caller has checked that there are no other keys. `Verb::key_count` counts the keys that are read
/// here, and `op`: change both together.
fn operation_of(
    version: Version,
    verb: Verb,
    fields: &mut Fields,
) -> Result<OperationLine, LineFault>
    ensures { IsRead operation_value (operation_of version verb (field_values fields.old)) result }
{
    match verb {
        Verb::Creat => read_creat(fields),
        Verb::Mkdir => read_mkdir(fields),
        Verb::Symlink => read_symlink(fields),
        Verb::Unlink => read_unlink(fields),
        Verb::Rmdir => read_rmdir(fields),
        Verb::Rename => read_rename(fields),
        Verb::Link => read_link(fields),
        Verb::Write => read_write(version, fields),
        Verb::Truncate => read_truncate(fields),
        Verb::Chmod => read_chmod(fields),
        Verb::Chown => read_chown(fields),
        Verb::Fsync => read_fsync(fields),
        Verb::Fdatasync => read_fdatasync(fields),
        Verb::FsyncRange => read_fsync_range(fields),
        Verb::Sync => Ok(OperationLine::Sync),
        Verb::Say => read_say(fields),
    }
}

/// The operation that these fields make. If the version has no operation with the name under `op`,
/// it is UnknownOperation, whatever the other keys are. An `op` that isn't a text, a key too many
/// or too few, or a value that its key can't have, is Syntax.
pub(crate) fn operation_in(version: Version, fields: &mut Fields) -> Result<Line, LineFault>
    ensures { IsRead line_value (operation_in version (field_values fields.old)) result }
{
    let Some(verb) = Verb::of(version, text_of(&fields.op)?) else {
        return Ok(Line::UnknownOperation);
    };
    if !has_only(version, verb.key_count(), fields) {
        return Err(LineFault::Syntax);
    }
    Ok(Line::Operation(operation_of(version, verb, fields)?))
}
