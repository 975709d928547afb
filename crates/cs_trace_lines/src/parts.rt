//! Reads the bytes of a file at the start whose line gives its length and some parts, in version 4.
//! After a fault, the caller drops the fields, of which some may be moved out.
ghost use Rattle.std.specs.Prelude.{◌≡◌, map, option_map};
ghost use Rattle.serde_json.specs.View.{items_view, view};
ghost use Rattle.cs_trace_lines.specs.Faults.{IsRead};
ghost use Rattle.cs_trace_lines.specs.Kept.{part_value};
ghost use Rattle.cs_trace_lines.specs.Lines.{bytes_by_parts, part_in, part_of, parts_in, parts_of};
ghost use Rattle.cs_trace_lines.specs.Reading.{field_value, field_values};

use crate::fault::LineFault;
use crate::fields::{Field, Fields, members_of};
use crate::sparse::{Part, SparseBytes};
use crate::values::{take_content, whole_number_in};
use crate::version::Version;
use serde_json::Value;
use std::alloc::Global;

/// The part that these fields make: an offset under `at`, and bytes under `bytes` or `text`. A key
/// too many (also a `note`) or too few, or a value that its key can't have, is Syntax.
fn part_of(version: Version, fields: &mut Fields) -> Result<Part, LineFault>
    ensures { IsRead part_value (part_of version (field_values fields.old)) result }
{
    if !fields.has_keys(2) || fields.note.is_some() {
        return Err(LineFault::Syntax);
    }
    Ok(Part {
        at: whole_number_in(&fields.at)?,
        bytes: take_content(version, &mut fields.bytes, &mut fields.text)?,
    })
}

/// The part that an item of the list is. A value that isn't an object is Syntax; the other faults
/// are those of `part_of`.
fn part_in(version: Version, value: Value) -> Result<Part, LineFault>
    ensures { IsRead part_value (part_in version (view value)) result }
{
    let members = members_of(value)?;
    let mut fields = Fields::new();
    fields.put_members(members);
    part_of(version, &mut fields)
}

/// The parts that the items of a list are, in their order. Whether they ascend and fit into the
/// file isn't checked here.
fn parts_of(alloc: Global, version: Version, values: Vec<Value>) -> Result<Vec<Part>, LineFault>
    ensures { IsRead (λ parts. map part_value parts.items)
        (parts_of version (items_view values.items)) result }
{
    let mut parts = Vec::new(alloc);
    for value in values {
        let part = part_in(version, value)?;
        if parts.push(part).is_err() {
            return Err(LineFault::Memory);
        }
    }
    Ok(parts)
}

/// Moves the parts out of a field. A value that isn't a list, or no value, is Syntax; the other
/// faults are those of `part_of`, or Memory.
fn take_parts(
    alloc: Global,
    version: Version,
    parts: &mut Option<Field>,
) -> Result<Vec<Part>, LineFault>
    ensures { IsRead (λ parts. map part_value parts.items)
        (parts_in version (option_map field_value parts.old)) result }
{
    match parts.take() {
        Some(Field::Array(values)) => parts_of(alloc, version, values),
        _ => Err(LineFault::Syntax),
    }
}

/// The bytes of a file whose length and whose parts are in these fields. A part that begins before
/// the end of the one before it, has no byte, or ends after the end of the file is Syntax. So is a
/// field that is missing or has a wrong value. Only the parts take memory, however large the length
/// is.
pub(crate) fn bytes_by_parts(
    alloc: Global,
    version: Version,
    length: &Option<Field>,
    parts: &mut Option<Field>,
) -> Result<SparseBytes, LineFault>
    ensures { IsRead (λ bytes. bytes)
        (bytes_by_parts version (option_map field_value length.now)
        (option_map field_value parts.old)) result }
{
    let length = whole_number_in(length)?;
    let parts = take_parts(alloc, version, parts)?;
    SparseBytes::of_parts(length, parts).ok_or(LineFault::Syntax)
}
