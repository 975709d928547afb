//! Finds the first fault of a users file, line by line, without allocating memory. `keeping` finds
//! the same fault while it makes rows, unless memory runs out first.
ghost use Rattle.std.specs.Prelude.{◌≡◌, ◌+◌, ◌≤◌, [], length, take};
ghost use Rattle.std.specs.Result.{result_err};
ghost use Rattle.cs_names.specs.Pieces.{pieces};
ghost use Rattle.cs_users.specs.Members.{is_known};
ghost use Rattle.cs_users.specs.Reading.{fault_of_line, fault_of_name, first_fault, names, rows_in};

use crate::fault::UsersFault;
use crate::row::{fields_of, is_skipped};
use cs_names::Pieces;
use cs_names::limits::USER_NAME_BYTES;

/// Finds the fault of the name on the line with this number; Ok if it has none. `is_taken` is
/// whether an earlier line has the same name.
pub(crate) fn check_name(number: usize, name: &[u8], is_taken: bool) -> Result<(), UsersFault>
    ensures { result_err result ≡ fault_of_name is_taken number name.now }
{
    if name.is_empty() {
        return Err(UsersFault::EmptyName(number));
    }
    if name.len() > USER_NAME_BYTES {
        return Err(UsersFault::LongName(number));
    }
    if is_taken {
        return Err(UsersFault::Twice(number));
    }
    Ok(())
}

/// Whether the line isn't skipped, has exactly four fields, and has this name.
fn has_name(name: &[u8], line: &[u8]) -> bool
    ensures { result ≡ names name.now line.now }
{
    match fields_of(line) {
        Some(fields) => fields.name == name,
        None => false,
    }
}

/// Whether one of the first `before` lines has the name. It reads them again, so that it needs no
/// memory.
fn is_named_before(text: &[u8], before: usize, name: &[u8]) -> bool
    ensures { result ≡ is_known (rows_in (take before (pieces 10 text.now))) name.now }
{
    Pieces::of(text, b'\n')
        .take(before)
        .any(|line| has_name(name, line))
}

/// Finds the fault of the line after the first `before` lines of the text, as `add_line` of
/// `keeping` does; Ok if it has none or is skipped. Each of those lines has a newline, so the text
/// has `before` bytes or more.
fn check_line(text: &[u8], before: usize, line: &[u8]) -> Result<(), UsersFault>
    requires { before ≤ length text.now }
    ensures { result_err result
        ≡ fault_of_line (rows_in (take before (pieces 10 text.now))) (before + 1) line.now }
{
    if is_skipped(line) {
        return Ok(());
    }
    let number = before + 1;
    match fields_of(line) {
        Some(fields) => {
            let is_taken = is_named_before(text, before, fields.name);
            check_name(number, fields.name, is_taken)
        }
        // it isn't skipped, so it hasn't exactly four fields
        None => Err(UsersFault::FieldCount(number)),
    }
}

/// Finds the fault of the first bad line; Ok if no line is bad. It needs no memory: it looks for
/// each line's name in the lines before it, so its time grows with the square of the file's length.
pub(crate) fn check_lines(text: &[u8]) -> Result<(), UsersFault>
    ensures { result_err result ≡ first_fault [] (pieces 10 text.now) }
{
    let mut before = 0;
    for line in Pieces::of(text, b'\n') {
        check_line(text, before, line)?;
        before += 1;
    }
    Ok(())
}
