//! The family Files: prefixes that lose one file's changes. Which changes a prefix loses is in
//! `losses`, and what is left of it in `left`. After a fault some of the lines may be written.
ghost use Rattle.std.specs.Prelude.{◌≡◌, ◌<◌, ◌≤◌, length, IfErr, OnOk};
ghost use Rattle.std.specs.Io.KnownBytes.{Appends};
ghost use Rattle.std.specs.List.{All, flat_map};
ghost use Rattle.cs_sets.specs.Orders.{needs_in};
ghost use Rattle.cs_picks.specs.Families.{files_sets, sets_left, sets_without};
ghost use Rattle.cs_every.specs.Faults.{IsOutside};
ghost use Rattle.cs_every.specs.Texts.{picks_text};

use crate::changes::changed_files;
use crate::left::{is_given, left_of, lost_places};
use crate::losses::losses_of;
use cs_every::{EveryFault, write_pick};
use cs_micro::Micros;
use cs_names::laws::know;
use cs_sets::Order;
use std::alloc::Global;
use std::io::Write;

/// Writes what is left of the prefix of `end` places if it loses the places `lost`. Writes nothing
/// if `lost` is empty, or if the prefix that is one place shorter, which loses the places
/// `shorter`, leaves the same set. All places must be of the order.
fn write_left<W: Write>(
    alloc: Global,
    order: &Order,
    shorter: &[u32],
    lost: &[u32],
    end: usize,
    out: &mut W,
) -> Result<(), EveryFault>
    requires few { end ≤ length order.now }
    requires inside { All (λ place. place < length order.now) lost.now }
    ensures fault { IfErr result IsOutside }
    ensures sets { OnOk result (Appends (W.contents out.old) (W.contents out.new)
        (picks_text (sets_left (needs_in order.now) shorter.now lost.now end))) }
{
    if !is_given(order, shorter, lost, end) {
        return Ok(());
    }
    let left = left_of(alloc, order, lost, end)?;
    write_pick(&left, out)
}

/// Writes what is left of a prefix if it loses its changes of the file; nothing if it loses none,
/// or if the shorter prefix leaves the same. `losses` has for each place of the prefix the file
/// whose change there is lost, None if none is; `shorter` has the same for the prefix that is one
/// place shorter.
fn write_without<W: Write>(
    alloc: Global,
    order: &Order,
    shorter: &[Option<u32>],
    losses: &[Option<u32>],
    file: u32,
    out: &mut W,
) -> Result<(), EveryFault>
    requires fewer { length shorter.now ≤ length order.now }
    requires few { length losses.now ≤ length order.now }
    ensures fault { IfErr result IsOutside }
    ensures sets { OnOk result (Appends (W.contents out.old) (W.contents out.new)
        (picks_text (sets_without (needs_in order.now) shorter.now losses.now file))) }
{
    // that an order is short
    know(order.len());
    let others = lost_places(alloc, shorter, file)?;
    let lost = lost_places(alloc, losses, file)?;
    write_left(alloc, order, &others, &lost, losses.len(), out)
}

/// Writes the sets of a prefix, one at most for each file, in the order of `files`. `losses` and
/// `shorter` are as in `write_without`.
fn write_prefix<W: Write>(
    alloc: Global,
    order: &Order,
    shorter: &[Option<u32>],
    losses: &[Option<u32>],
    files: &[u32],
    out: &mut W,
) -> Result<(), EveryFault>
    requires fewer { length shorter.now ≤ length order.now }
    requires few { length losses.now ≤ length order.now }
    ensures fault { IfErr result IsOutside }
    ensures sets { OnOk result (Appends (W.contents out.old) (W.contents out.new)
        (picks_text
        (flat_map (sets_without (needs_in order.now) shorter.now losses.now) files.now))) }
{
    for file in files {
        write_without(alloc, order, shorter, losses, *file, out)?;
    }
    Ok(())
}

/// Writes the family: the sets of each prefix, the shortest first. The prefix of no places, which
/// comes first, loses nothing, so it gives no set. The order must be that of the micro-operations.
pub fn write_files<W: Write>(
    alloc: Global,
    micros: &Micros,
    order: &Order,
    out: &mut W,
) -> Result<(), EveryFault>
    requires { length order.now ≡ length micros.now.ops }
    ensures fault { IfErr result IsOutside }
    ensures sets { OnOk result
        (Appends (W.contents out.old) (W.contents out.new)
        (picks_text (files_sets micros.now order.now))) }
{
    let ops = micros.ops();
    let syncs = micros.syncs();
    let files = changed_files(alloc, ops)?;
    for end in 0..ops.len() + 1 {
        // the prefix of no places has no shorter one, and is compared with itself
        let shorter = losses_of(alloc, ops, syncs, end.saturating_sub(1))?;
        let losses = losses_of(alloc, ops, syncs, end)?;
        write_prefix(alloc, order, &shorter, &losses, &files, out)?;
    }
    Ok(())
}
