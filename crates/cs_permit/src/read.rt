//! The rules of a read. A read of a directory begins at its first entry or at the end of the fid's
//! last read, and gives whole entries (read(5)).
ghost use Rattle.std.specs.Prelude.{◌≡◌, option_copied};
ghost use Rattle.cs_permit.specs.Reads.{is_good_offset, name_before, needs_more, read_rules};
ghost use Rattle.cs_permit.specs.Refusals.{first_failing};

use crate::call::ReadCall;
use crate::rules::is_directory;
use crate::shown::entry_size;
use cs_names::{Name, RuleId};
use cs_tree_model::TreeRead;

/// Whether a read of a directory may begin at the call's offset: the offset is 0, or the end of the
/// fid's last read.
fn is_good_offset(call: &ReadCall) -> bool
    ensures { result ≡ is_good_offset call.now }
{
    call.offset == 0 || call.offset == call.place.end
}

/// The name after which a read of a directory begins; None if it begins at the first entry. At
/// offset 0 that is always so. At any other offset it is the fid's last name: `is_good_offset` has
/// compared the offset.
pub fn name_before(call: &ReadCall) -> Option<&Name>
    ensures { option_copied result ≡ name_before call.now }
{
    if call.offset == 0 {
        None
    } else {
        call.place.last.as_ref()
    }
}

/// Whether the next entry of the directory has more bytes than the read asks for, so that not one
/// fits; false if no entry is left.
fn needs_more<T: TreeRead>(tree: &T, call: &ReadCall) -> bool
    ensures { result ≡ needs_more (T.tree tree.now) call.now }
{
    match tree.entry_after(call.number, name_before(call), None) {
        Some(entry) => entry_size(tree, entry) > call.count as usize,
        None => false,
    }
}

/// The first of G3 to G5 that fails; None if none does. A read of a file that is there fails none:
/// at its end or past it, the reply has no bytes. G4 and G5 are for directories.
pub fn first_of_read<T: TreeRead>(call: &ReadCall, tree: &T) -> Option<RuleId>
    ensures { result ≡ first_failing (read_rules (T.tree tree.now) call.now) }
{
    let Some(file) = tree.record(call.number) else {
        return Some(RuleId::G3);
    };
    if !is_directory(&file) {
        return None;
    }
    if !is_good_offset(call) {
        return Some(RuleId::G4);
    }
    if needs_more(tree, call) {
        return Some(RuleId::G5);
    }
    None
}
