//! Makes rows of the lines of a users file, and reads each line once.
ghost use Rattle.std.specs.Prelude.{◌≡◌, ◌⊎◌, ◌++◌, None, Some, IfErr, IfOk, IfSome, IsTrue, OnOk};
ghost use Rattle.std.specs.Prelude.{option_to_list};
ghost use Rattle.cs_names.specs.Pieces.{pieces};
ghost use Rattle.cs_names.specs.Texts.{is_text};
ghost use Rattle.cs_users.specs.Reading.{IsText, fault_of_line, row_in, rows_or_fault};

use crate::fault::UsersFault;
use crate::reading::check_name;
use crate::row::{Row, fields_of, is_skipped};
use crate::rows::Rows;
use cs_names::Pieces;
use std::alloc::Global;

/// Adds the row of the line with this number; a skipped line adds none. The error is the line's
/// fault, as `check_line` of `reading` finds it, or Memory, and drops the rows. The caller has
/// tested that the file is text.
fn add_line(alloc: Global, rows: Rows, number: usize, line: &[u8]) -> Result<Rows, UsersFault>
    requires { IfSome (row_in line.now) (λ row. IsText row.name) }
    ensures good { OnOk result (fault_of_line rows number line.now ≡ None) }
    ensures kept { IfOk result (λ more. more ≡ rows ++ option_to_list (row_in line.now)) }
    ensures fault { IfErr result
        (λ fault. (fault ≡ UsersFault.Memory) ⊎ (fault_of_line rows number line.now ≡ Some fault)) }
{
    if is_skipped(line) {
        return Ok(rows);
    }
    let Some(fields) = fields_of(line) else {
        // it isn't skipped, so it hasn't exactly four fields
        return Err(UsersFault::FieldCount(number));
    };
    check_name(number, fields.name, rows.knows(fields.name))?;
    let row = Row::copy_of(alloc, &fields)?;
    Ok(rows.with_row(alloc, row)?)
}

/// The rows of the lines of a file that is text, or the fault of the first bad line. The fault is
/// Memory as soon as an allocation fails, even if a later line is bad. An empty text has no rows.
pub(crate) fn rows_of_lines(alloc: Global, text: &[u8]) -> Result<Rows, UsersFault>
    requires { IsTrue (is_text text.now) }
    ensures kept { IfOk result (λ rows. rows_or_fault (pieces 10 text.now) ≡ Ok rows) }
    ensures fault { IfErr result
        (λ fault. (fault ≡ UsersFault.Memory) ⊎ (rows_or_fault (pieces 10 text.now) ≡ Err fault)) }
{
    let mut rows = Rows::new(alloc);
    let mut before = 0;
    for line in Pieces::of(text, b'\n') {
        rows = add_line(alloc, rows, before + 1, line)?;
        before += 1;
    }
    Ok(rows)
}
