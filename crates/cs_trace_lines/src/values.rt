//! Reads the values of a line's keys: texts, numbers, permissions and bytes. A wrong value is one
//! of another kind of JSON, or one that the key can't have.
ghost use Rattle.std.specs.Prelude.{◌≡◌, None, option_map};
ghost use Rattle.std.specs.String.{string_bytes};
ghost use Rattle.cs_trace_lines.specs.Faults.{IsRead};
ghost use Rattle.cs_trace_lines.specs.Values.{bytes_in, claims_in, content_by, has_only, is_octal};
ghost use Rattle.cs_trace_lines.specs.Values.{is_target, is_without_nul, may_note, mode_in};
ghost use Rattle.cs_trace_lines.specs.Values.{permissions_in};
ghost use Rattle.cs_trace_lines.specs.Values.{symlink_claims_in, target_in, text_in};
ghost use Rattle.cs_trace_lines.specs.Values.{whole_number_in};
ghost use Rattle.cs_trace_lines.specs.Reading.{field_value, field_values};
ghost use Rattle.cs_trace_lines.specs.Said.{claims_of};

use crate::digits;
use crate::fault::LineFault;
use crate::fields::{Field, Fields};
use crate::line::Claims;
use crate::version::Version;

/// The most bytes of a symbolic link's target: PATH_MAX of Linux, without the NUL at the end.
pub const TARGET_BYTES: usize = 4_095;

/// The text in a field, borrowed. A value that isn't a text, or no value, is Syntax.
pub(crate) fn text_of(field: &Option<Field>) -> Result<&str, LineFault>
    ensures { IsRead (λ text. text.now) (text_in (option_map field_value field.now)) result }
{
    match field {
        Some(Field::Text(text)) => Ok(text.as_str()),
        _ => Err(LineFault::Syntax),
    }
}

/// Moves the text out of a field. A value that isn't a text, or no value, is Syntax. The field is
/// None afterwards in any case.
pub(crate) fn take_text(field: &mut Option<Field>) -> Result<String, LineFault>
    ensures { IsRead string_bytes (text_in (option_map field_value field.old)) result }
{
    match field.take() {
        Some(Field::Text(text)) => Ok(text),
        _ => Err(LineFault::Syntax),
    }
}

/// The number of a field, if it is a whole number from 0 to 2^64 - 1, written without sign, point
/// and exponent. Another number, a value that isn't a number, or no value is Syntax.
pub(crate) fn whole_number_in(field: &Option<Field>) -> Result<u64, LineFault>
    ensures { IsRead (λ n. n) (whole_number_in (option_map field_value field.now)) result }
{
    match field {
        Some(Field::Number(number)) => number.as_u64().ok_or(LineFault::Syntax),
        _ => Err(LineFault::Syntax),
    }
}

/// Whether the byte is an octal digit in ASCII.
fn is_octal(digit: u8) -> bool
    ensures { result ≡ is_octal digit }
{
    digit >= b'0' && digit <= b'7'
}

/// The permissions that exactly three octal digits spell, from 0 to 0o777; None for any other text.
fn permissions_in(text: &str) -> Option<u16>
    ensures { result ≡ permissions_in text.now }
{
    let [owner, group, others] = text.as_bytes() else {
        return None;
    };
    if !(is_octal(*owner) && is_octal(*group) && is_octal(*others)) {
        return None;
    }
    Some(u16::from(*owner - b'0') * 64 + u16::from(*group - b'0') * 8 + u16::from(*others - b'0'))
}

/// The permissions in the field `mode`. Anything but a text of three octal digits is Syntax.
pub(crate) fn mode_in(mode: &Option<Field>) -> Result<u16, LineFault>
    ensures { IsRead (λ n. n) (mode_in (option_map field_value mode.now)) result }
{
    permissions_in(text_of(mode)?).ok_or(LineFault::Syntax)
}

/// The owner, the group and the permissions in the fields, with the two names moved out; they
/// aren't checked. A field that is missing or has a wrong value is Syntax; the names may be moved
/// out then, too.
pub(crate) fn take_claims(fields: &mut Fields) -> Result<Claims, LineFault>
    ensures { IsRead claims_of (claims_in (field_values fields.old)) result }
{
    Ok(Claims {
        owner: take_text(&mut fields.owner)?,
        group: take_text(&mut fields.group)?,
        permissions: mode_in(&fields.mode)?,
    })
}

/// The owner, the group and the permissions of a symbolic link, whose line has no mode: the two
/// names are moved out of the fields, and the permissions are 777. A name that is missing or isn't
/// a text is Syntax.
pub(crate) fn take_symlink_claims(fields: &mut Fields) -> Result<Claims, LineFault>
    ensures { IsRead claims_of (symlink_claims_in (field_values fields.old)) result }
{
    Ok(Claims {
        owner: take_text(&mut fields.owner)?,
        group: take_text(&mut fields.group)?,
        permissions: 0o777,
    })
}

/// Whether the text has no NUL byte.
fn is_without_nul(text: &str) -> bool
    ensures { result ≡ is_without_nul text.now }
{
    text.as_bytes().iter().all(|byte| *byte > 0)
}

/// Whether a symbolic link may have this target: 1 to `TARGET_BYTES` bytes without NUL.
fn is_target(text: &str) -> bool
    ensures { result ≡ is_target text.now }
{
    let count = text.len();
    count > 0 && count <= TARGET_BYTES && is_without_nul(text)
}

/// Moves the target of a symbolic link out of its field. A text that `is_target` refuses, a value
/// that isn't a text, or no value is Syntax. The field is None afterwards in any case.
pub(crate) fn take_target(target: &mut Option<Field>) -> Result<String, LineFault>
    ensures { IsRead string_bytes (target_in (option_map field_value target.old)) result }
{
    let text = take_text(target)?;
    if !is_target(text.as_str()) {
        return Err(LineFault::Syntax);
    }
    Ok(text)
}

/// The bytes that the hexadecimal digits of a field spell, in upper or lower case; an empty text
/// spells none. Another text, such as an odd number of digits, a value that isn't a text, or no
/// value is Syntax. The field is None afterwards in any case.
fn take_bytes(field: &mut Option<Field>) -> Result<Vec<u8>, LineFault>
    ensures { IsRead (λ bytes. bytes.items) (bytes_in (option_map field_value field.old)) result }
{
    digits::decode(take_text(field)?.into_bytes())
}

/// The bytes of a file or a write. If the field `digits` (of the key `bytes`) is there, it spells
/// them in hexadecimal, and `text` stays as it is. If not, they are those of `text` in UTF-8, which
/// lines have from version 3 on. The value that is read is moved out. If it is missing or wrong, it
/// is Syntax. By the count of keys, callers have refused a line that has both.
pub(crate) fn take_content(
    version: Version,
    digits: &mut Option<Field>,
    text: &mut Option<Field>,
) -> Result<Vec<u8>, LineFault>
    ensures { IsRead (λ bytes. bytes.items)
        (content_by version (option_map field_value digits.old) (option_map field_value text.old))
        result }
{
    if digits.is_some() {
        return take_bytes(digits);
    }
    if !version.is_third_or_later() {
        return Err(LineFault::Syntax);
    }
    Ok(take_text(text)?.into_bytes())
}

/// Whether a line of this version may have this note: no note (None) in every version, a text from
/// version 3 on, and another value in none.
fn may_note(version: Version, note: &Option<Field>) -> bool
    ensures { result ≡ may_note version (option_map field_value note.now) }
{
    match note {
        None => true,
        Some(Field::Text(_)) => version.is_third_or_later(),
        Some(_) => false,
    }
}

/// Whether the line has exactly `count` keys of the format, and in addition at most a note that the
/// version allows. Which keys it has isn't looked at: reading them finds a missing one.
pub(crate) fn has_only(version: Version, count: usize, fields: &Fields) -> bool
    ensures { result ≡ has_only version count (field_values fields.now) }
{
    fields.has_keys(count) && may_note(version, &fields.note)
}
