//! The files that micro-operations change. An operation changes a file if it sets its size, writes
//! a block or sets its rights; a new, moved or deleted entry doesn't change the file.
ghost use Rattle.std.specs.Prelude.{◌≡◌, ◌≤◌, ◌^◌, IfOk};
ghost use Rattle.cs_picks.specs.Changes.{changed_files, file_end, is_changed, is_same_file};
ghost use Rattle.cs_picks.specs.Changes.{number_after};

use cs_micro::MicroOp;
use cs_same_states::changed_file;
use std::alloc::{AllocError, Global};

/// Whether `found` is the file of that number; false if `found` is None.
pub fn is_same_file(found: Option<u32>, file: u32) -> bool
    ensures { result ≡ is_same_file file found }
{
    match found {
        Some(other) => other == file,
        None => false,
    }
}

/// One more than the number of the file `found`; 0 if `found` is None.
fn number_after(found: Option<u32>) -> usize
    ensures value { result ≡ number_after found }
    ensures small { result ≤ 2 ^ 32 }
{
    match found {
        Some(file) => file as usize + 1,
        None => 0,
    }
}

/// One more than the greatest number of a file that the operations change; 0 if they change none.
fn file_end(ops: &[MicroOp]) -> usize
    ensures value { result ≡ file_end ops.now }
    ensures small { result ≤ 2 ^ 32 }
{
    let mut end = 0;
    for op in ops {
        end = number_after(changed_file(op)).max(end);
    }
    end
}

/// Whether one of the operations changes the file; false if there are no operations.
fn is_changed(ops: &[MicroOp], file: u32) -> bool
    ensures { result ≡ is_changed ops.now file }
{
    ops.iter().any(|op| is_same_file(changed_file(op), file))
}

/// The numbers of the files that the operations change, ascending, each once; empty if they change
/// none. The error is out of memory. Each number is looked for in all operations.
pub fn changed_files(alloc: Global, ops: &[MicroOp]) -> Result<Vec<u32>, AllocError>
    ensures { IfOk result (λ files. files.items ≡ changed_files ops.now) }
{
    let mut files = Vec::new(alloc);
    for number in 0..file_end(ops) {
        let file = number as u32;
        if is_changed(ops, file) {
            files.push(file)?;
        }
    }
    Ok(files)
}
