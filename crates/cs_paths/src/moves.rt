//! Where the directories of a trace are after each of its moves of directories. The position of a
//! directory is the place of the entry at which it is, among all entries of the tables; its home is
//! its position before any move. (In `directory_moves` and `move_at`, places are those of
//! micro-operations.)
ghost use Rattle.std.specs.Prelude.{◌≡◌, ◌<◌, ◌^◌, fold, length, IfOk, IfSome};
ghost use Rattle.std.specs.List.{All};
ghost use Rattle.std.specs.Option.{is_some};
ghost use Rattle.cs_entries.specs.Rules.{moves_directory};
ghost use Rattle.cs_micro.specs.Legal.{entry_op};
ghost use Rattle.cs_apm.specs.Rules.{op_at};
ghost use Rattle.cs_paths.specs.PathOrders.{IsBelow, directory_moves, home_after, homes_from};
ghost use Rattle.cs_paths.specs.PathOrders.{homes_in};
ghost use Rattle.cs_paths.specs.PathOrders.{moved_at, moved_directory, moved_to, with_home};
ghost use Rattle.cs_paths.specs.PathOrders.{StepIsBelow};

use crate::passing::push_if;
use cs_apm::slot::Step;
use cs_entries::Node;
use cs_micro::MicroOp;
use std::alloc::{AllocError, Global};

/// The number of the directory that the micro-operation moves; None if it moves none.
fn moved_directory(op: &MicroOp) -> Option<u32>
    ensures value { result ≡ moved_directory op.now }
    ensures moves { is_some result ≡ moves_directory (entry_op op.now) }
{
    match op {
        MicroOp::MoveDirEntry {
            node: Node::Directory(directory),
            ..
        } => Some(*directory),
        _ => None,
    }
}

/// The places of the micro-operations that move a directory, ascending. None in versions 1 to 3.
pub fn directory_moves(alloc: Global, ops: &[MicroOp]) -> Result<Vec<u32>, AllocError>
    requires { length ops.now < 2 ^ 20 }
    ensures { IfOk result (λ moves. moves.items ≡ directory_moves ops.now) }
{
    let mut moves = Vec::new(alloc);
    for place in 0..ops.len() {
        push_if(&mut moves, place, moved_directory(&ops[place]).is_some())?;
    }
    Ok(moves)
}

/// Notes the place as the home of the node there, if it is a directory. If not, nothing changes.
fn note_home(homes: &mut [u32], place: u32, node: Option<Node>)
    requires { IsBelow (length homes.old) node }
    ensures { homes.new ≡ with_home homes.old place node }
{
    if let Some(Node::Directory(directory)) = node {
        homes[directory as usize] = place;
    }
}

/// Notes the home of each directory that a slot has at the start: the slot's place.
fn note_start_homes(homes: &mut [u32], slots: &[Option<Node>])
    requires few { length slots.now < 2 ^ 20 }
    requires known { All (IsBelow (length homes.old)) slots.now }
    ensures { homes.new ≡ homes_from homes.old 0 slots.now }
{
    for place in 0..slots.len() {
        note_home(homes, place as u32, slots[place]);
    }
}

/// Notes the home of each directory that a `Step::Set` puts into a slot, which are those that are
/// made: the slot's place. A move of a directory changes no home.
fn note_made_homes(homes: &mut [u32], steps: &[Step])
    requires { All (StepIsBelow (length homes.old)) steps.now }
    ensures { homes.new ≡ fold home_after homes.old steps.now }
{
    for step in steps {
        if let Step::Set(place, node) = step {
            note_home(homes, *place, *node);
        }
    }
}

/// The home of each of the first `count` directories, by its number: the place of the entry that
/// has it at the start, or at which it is made; 0 for the root, which has no entry.
pub fn homes_of(
    alloc: Global,
    count: usize,
    slots: &[Option<Node>],
    steps: &[Step],
) -> Result<Vec<u32>, AllocError>
    requires few { length slots.now < 2 ^ 20 }
    requires slots { All (IsBelow count) slots.now }
    requires steps { All (StepIsBelow count) steps.now }
    ensures { IfOk result (λ homes. homes.items ≡ homes_in count slots.now steps.now) }
{
    let mut homes = vec![in alloc; 0u32; count]?;
    note_start_homes(&mut homes, slots);
    note_made_homes(&mut homes, steps);
    Ok(homes)
}

/// Changes the position of the directory that the micro-operation moves to the place that its step
/// moves it to. If it moves no directory, nothing changes.
fn move_directory(positions: &mut [u32], op: &MicroOp, step: Step)
    requires { IfSome (moved_directory op.now) (λ d. d < length positions.old) }
    ensures { positions.new ≡ moved_to positions.old op.now step }
{
    if let Some(directory) = moved_directory(op) {
        if let Step::Move(_, to) = step {
            positions[directory as usize] = to;
        }
    }
}

/// Changes the position of the directory that the micro-operation at the place moves. If it moves
/// none, nothing changes. `steps` has the step of each micro-operation.
pub fn move_at(positions: &mut [u32], ops: &[MicroOp], steps: &[Step], place: u32)
    requires there { place < length ops.now }
    requires steps { length steps.now ≡ length ops.now }
    requires known { IfSome (moved_directory (op_at ops.now place))
        (λ d. d < length positions.old) }
    ensures { positions.new ≡ moved_at ops.now steps.now positions.old place }
{
    let place = place as usize;
    move_directory(positions, &ops[place], steps[place]);
}
