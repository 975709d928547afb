//! Sets of places as lines of a picks file: each a JSON array of its places, ascending, and a line
//! feed.
ghost use Rattle.std.specs.Prelude.{◌++◌, codes, decimal, length, map, IfErr, OnOk};
ghost use Rattle.std.specs.Io.KnownBytes.{Appends};
ghost use Rattle.cs_sets.specs.Every.{every};
ghost use Rattle.cs_sets.specs.Orders.{needs_in};
ghost use Rattle.cs_sets.specs.Places.{places_of};
ghost use Rattle.cs_every.specs.Faults.{IsOutside};
ghost use Rattle.cs_every.specs.Texts.{others_text, pick_line, picks_text};

use crate::bytes::write_bytes;
use crate::fault::EveryFault;
use crate::line::Line;
use cs_sets::{Order, Row, Sets};
use std::io::Write;

/// Writes a bracket and the first place of a set. The only fault is Output.
fn write_first<W: Write>(place: usize, out: &mut W) -> Result<(), EveryFault>
    ensures fault { IfErr result IsOutside }
    ensures text { OnOk result (Appends (W.contents out.old) (W.contents out.new)
        (codes "[" ++ decimal place)) }
{
    write!(out, "[{place}").map_err(|_| EveryFault::Output)
}

/// Writes a comma and a further place of a set. The only fault is Output.
fn write_other<W: Write>(place: usize, out: &mut W) -> Result<(), EveryFault>
    ensures fault { IfErr result IsOutside }
    ensures text { OnOk result (Appends (W.contents out.old) (W.contents out.new)
        (codes "," ++ decimal place)) }
{
    write!(out, ",{place}").map_err(|_| EveryFault::Output)
}

/// Writes a comma and the number of each of these places, in their order. The only fault is Output.
fn write_places<W: Write>(places: &[u32], out: &mut W) -> Result<(), EveryFault>
    ensures fault { IfErr result IsOutside }
    ensures text { OnOk result (Appends (W.contents out.old) (W.contents out.new)
        (others_text places.now)) }
{
    for place in places {
        write_other(*place as usize, out)?;
    }
    Ok(())
}

/// Writes the places, in their order, as a JSON array and a line feed. The array of no places is
/// `[]`. It allocates nothing. The only fault is Output; then a part of the line may be written.
/// (`write_set` does the same for a row.)
pub fn write_pick<W: Write>(places: &[u32], out: &mut W) -> Result<(), EveryFault>
    ensures fault { IfErr result IsOutside }
    ensures text { OnOk result (Appends (W.contents out.old) (W.contents out.new)
        (pick_line places.now)) }
{
    match places {
        [] => {
            write_bytes(b"[]\n", out)?;
            Ok(())
        }
        [first, others @ ..] => {
            write_first(*first as usize, out)?;
            write_places(others, out)?;
            write_bytes(b"]\n", out)?;
            Ok(())
        }
    }
}

/// Writes the places of the set, ascending, as a JSON array and a line feed. The array of an empty
/// set is `[]`. It allocates nothing. The only fault is Output; then a part of the line may be
/// written. (`write_pick` does the same for a list.)
pub fn write_set<W: Write>(set: &Row, out: &mut W) -> Result<(), EveryFault>
    ensures fault { IfErr result IsOutside }
    ensures text { OnOk result (Appends (W.contents out.old) (W.contents out.new)
        (pick_line (places_of set.now))) }
{
    let mut line = Line::empty();
    line.change_to(set);
    line.write(out)
}

/// Writes these sets, in their order, each as a line. It allocates nothing. The only fault is
/// Output; then some of the lines may be written.
pub fn write_rows<W: Write>(sets: &[Row], out: &mut W) -> Result<(), EveryFault>
    ensures fault { IfErr result IsOutside }
    ensures text { OnOk result (Appends (W.contents out.old) (W.contents out.new)
        (picks_text (map places_of sets.now))) }
{
    let mut line = Line::empty();
    for set in sets {
        line.change_to(set);
        line.write(out)?;
    }
    Ok(())
}

/// Writes all sets that the order allows, in the order of `Sets`, each as a line, however many
/// there are. It allocates nothing. The only fault is Output; then some of the lines may be
/// written.
pub fn write_every<W: Write>(order: &Order, out: &mut W) -> Result<(), EveryFault>
    ensures fault { IfErr result IsOutside }
    ensures text { OnOk result (Appends (W.contents out.old) (W.contents out.new)
        (picks_text (every (needs_in order.now) (length order.now)))) }
{
    let mut sets = Sets::of(order);
    let mut line = Line::empty();
    while let Some(set) = sets.next() {
        line.change_to(&set);
        line.write(out)?;
    }
    Ok(())
}
