//! The number of the trace's line that each micro-operation came from. Lines count from 1.
ghost use Rattle.std.specs.Prelude.{◌≡◌, ◌≤◌, ◌++◌, ◌^◌, IfOk, OnOk, length, replicate};
ghost use Rattle.std.specs.Prelude.{slice_index};
ghost use Rattle.std.specs.List.{All};
ghost use Rattle.cs_trace.specs.States.{lines_in};
ghost use Rattle.cs_micro.specs.MicroOperations.{IsWithinLimit};
ghost use Rattle.cs_list.specs.Lines.{lines_of, lines_of_operations, number_unless_blank};
ghost use Rattle.cs_list.specs.Lines.{numbers_not_blank};

use cs_micro::micro_count;
use cs_names::limits::TREE_RECORDS;
use cs_trace::{Operation, Trace, Version};
use cs_trace_lines::is_blank;
use std::alloc::{AllocError, Global};

/// Adds the number of the line at the place, which is one more than the place, unless the line is
/// blank (`is_blank` of cs_trace_lines). The error is out of memory; the numbers are unchanged
/// then.
fn push_unless_blank(numbers: &mut Vec<usize>, place: usize, line: &str) -> Result<(), AllocError>
    requires { place ≤ 2 ^ 63 }
    ensures { OnOk result
        (numbers.new.items ≡ numbers.old.items ++ number_unless_blank (place, line.now)) }
{
    if !is_blank(line) {
        numbers.push(place + 1)?;
    }
    Ok(())
}

/// The numbers of a text's lines that aren't blank, in their order. Empty if all are blank. The
/// error is out of memory.
fn numbers_not_blank(alloc: Global, text: &str) -> Result<Vec<usize>, AllocError>
    ensures { IfOk result (λ numbers. numbers.items ≡ numbers_not_blank (lines_in text.now)) }
{
    let mut numbers = Vec::new(alloc);
    for (place, line) in text.split('\n').enumerate() {
        push_unless_blank(&mut numbers, place, line)?;
    }
    Ok(numbers)
}

/// The line number at the place in the list; 0, which is no line's number, if the place is past the
/// end.
pub fn number_at(numbers: &[usize], place: usize) -> usize
    ensures { result ≡ slice_index numbers.now place }
{
    numbers.get(place).copied().unwrap_or(0)
}

/// Adds the number of a line `count` times. The error is out of memory; the lines are unchanged
/// then.
fn push_repeated(
    alloc: Global,
    lines: &mut Vec<usize>,
    line: usize,
    count: usize,
) -> Result<(), AllocError>
    ensures { OnOk result (lines.new.items ≡ lines.old.items ++ replicate count line) }
{
    let same = vec![in alloc; line; count]?;
    lines.extend_from_slice(&same)
}

/// For each micro-operation that the operations make, the number of its operation's line. `numbers`
/// has those of all lines that aren't blank; the one at the place `first` is the first operation's.
/// The error is out of memory. The operations are those of a trace, which bounds their sizes and
/// `first`.
fn lines_of_operations(
    alloc: Global,
    version: Version,
    numbers: &[usize],
    first: usize,
    operations: &[Operation],
) -> Result<Vec<usize>, AllocError>
    requires within { All (IsWithinLimit version) operations.now }
    requires few { first ≤ TREE_RECORDS }
    ensures { IfOk result (λ lines. lines.items
        ≡ lines_of_operations version numbers.now first operations.now) }
{
    let mut lines = Vec::new(alloc);
    for (place, operation) in operations.iter().enumerate() {
        let line = number_at(numbers, first + place);
        push_repeated(alloc, &mut lines, line, micro_count(version, operation))?;
    }
    Ok(lines)
}

/// For each micro-operation of a trace, the number of the line that it came from. `text` is what
/// `trace` was read from, which isn't checked. Of its lines that aren't blank, the header and the
/// lines of the start come first, as many as the trace has records (the header's is the root); each
/// line after them is an operation's. The error is out of memory.
pub fn lines_of(alloc: Global, text: &str, trace: &Trace) -> Result<Vec<usize>, AllocError>
    ensures { IfOk result (λ lines. lines.items ≡ lines_of text.now trace.now) }
{
    let numbers = numbers_not_blank(alloc, text)?;
    let first = trace.records().len();
    lines_of_operations(alloc, trace.version(), &numbers, first, trace.operations())
}
