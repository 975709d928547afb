//! Which micro-operation makes a file, and which first gives it a size above an offset. A file may
//! be a symbolic link, and is given by its number.
ghost use Rattle.std.specs.Prelude.{◌≡◌, ◌<◌, ℕ, false, true, length, IfSome};
ghost use Rattle.std.specs.List.{list_any};
ghost use Rattle.cs_apm.specs.Rules.{op_at};
ghost use Rattle.cs_different.specs.Wants as model;
ghost use Rattle.cs_different.specs.Wants.{grows_above, holds};

use cs_entries::Node;
use cs_micro::MicroOp;

/// Whether the micro-operation makes the file.
fn makes(op: &MicroOp, file: u32) -> bool
    ensures { result ≡ model.makes file op.now }
{
    match op {
        MicroOp::CreateDirEntry {
            node: Node::File(_, made),
            ..
        } => *made == file,
        _ => false,
    }
}

/// Whether the micro-operation links the file: as a link, or as the first half of a rename.
fn links(op: &MicroOp, file: u32) -> bool
    ensures { result ≡ model.links file op.now }
{
    match op {
        MicroOp::LinkDirEntry { file: linked, .. } => *linked == file,
        _ => false,
    }
}

/// Whether the micro-operation gives the file a size above the offset, so that it has a byte there.
fn grows(op: &MicroOp, file: u32, offset: u64) -> bool
    ensures { result ≡ grows_above file offset op.now }
{
    match op {
        MicroOp::ChangeFileSize {
            file: sized,
            length,
        } => *sized == file && offset < *length,
        _ => false,
    }
}

/// Whether the file is in the slot: the entry of the slot holds it. False for a slot with a
/// directory and for an empty one. (`is_file` of cs_same_states has the same body.)
fn is_held(slot: Option<Node>, file: u32) -> bool
    ensures { result ≡ holds file slot }
{
    match slot {
        Some(Node::File(_, held)) => held == file,
        _ => false,
    }
}

/// Whether some micro-operation links the file: as a link, or as the first half of a rename.
pub fn is_linked(ops: &[MicroOp], file: u32) -> bool
    ensures { result ≡ list_any (model.links file) ops.now }
{
    for op in ops {
        if links(op, file) {
            return true;
        }
    }
    false
}

/// Whether the file is in one of the slots. If these are the slots at the start: whether some entry
/// holds it then.
pub fn is_in_slot(slots: &[Option<Node>], file: u32) -> bool
    ensures { result ≡ list_any (holds file) slots.now }
{
    for slot in slots {
        if is_held(*slot, file) {
            return true;
        }
    }
    false
}

/// Whether the micro-operation at the place makes the file.
fn makes_at(ops: &[MicroOp], place: usize, file: u32) -> bool
    requires { place < length ops.now }
    ensures { result ≡ model.makes file (op_at ops.now place) }
{
    makes(&ops[place], file)
}

/// Whether the micro-operation at the place gives the file a size above the offset.
fn grows_at(ops: &[MicroOp], place: usize, file: u32, offset: u64) -> bool
    requires { place < length ops.now }
    ensures { result ≡ grows_above file offset (op_at ops.now place) }
{
    grows(&ops[place], file, offset)
}

/// The place of the first micro-operation that makes the file; None if none does.
pub fn first_maker(ops: &[MicroOp], file: u32) -> Option<usize>
    ensures { IfSome result (λ maker. (maker < length ops.now)
        × (model.makes file (op_at ops.now maker) ≡ true)) }
{
    for place in 0..ops.len() {
        if makes_at(ops, place, file) {
            return Some(place);
        }
    }
    None
}

/// Whether a micro-operation at another place than `maker` makes the file, too. In a trace none
/// does.
pub fn is_made_twice(ops: &[MicroOp], file: u32, maker: usize) -> bool
    ensures { result ≡ false → (i : ℕ) → i < length ops.now
        → model.makes file (op_at ops.now i) ≡ true → i ≡ maker }
{
    for place in 0..ops.len() {
        if place != maker && makes_at(ops, place, file) {
            return true;
        }
    }
    false
}

/// The place of the first micro-operation that gives the file a size above the offset; None if none
/// does.
pub fn first_grower(ops: &[MicroOp], file: u32, offset: u64) -> Option<usize>
    ensures { IfSome result (λ grower. (grower < length ops.now)
        × (grows_above file offset (op_at ops.now grower) ≡ true)
        × ((i : ℕ) → i < grower → grows_above file offset (op_at ops.now i) ≡ false)) }
{
    for place in 0..ops.len() {
        if grows_at(ops, place, file, offset) {
            return Some(place);
        }
    }
    None
}
