//! How many sets an order allows.
ghost use Rattle.std.specs.Prelude.{◌<◌, ◌↔◌, ◌++◌, codes, decimal, length, IfErr, IsTrue, OnOk};
ghost use Rattle.std.specs.Io.KnownBytes.{Appends};
ghost use Rattle.cs_sets.specs.Every.{every};
ghost use Rattle.cs_sets.specs.Orders.{needs_in};
ghost use Rattle.cs_every.specs.Faults.{IsOutside, IsUncounted};
ghost use Rattle.cs_every.specs.Texts.{count_text};

use crate::bytes::write_bytes;
use crate::fault::EveryFault;
use cs_sets::{Order, Sets};
use std::alloc::Global;
use std::io::Write;

/// One more than the greatest number that is printed: 2^64.
const MOST: u128 = 1 << 64;

/// Whether the order allows more than `most` sets. It finds no more than `most` + 1 of them, one
/// after the other, and allocates nothing. (`has_more_than` of cs_picks is the same for whole
/// sets.)
pub fn has_more_than(order: &Order, most: u32) -> bool
    ensures { IsTrue result ↔ (most < length (every (needs_in order.now) (length order.now))) }
{
    let mut sets = Sets::of(order);
    for _ in 0..most {
        let Some(passed) = sets.next() else {
            return false;
        };
    }
    sets.next().is_some()
}

/// Writes a number and a line feed. After a fault a part of them may be written.
fn write_number<W: Write>(number: u128, out: &mut W) -> Result<(), EveryFault>
    ensures fault { IfErr result IsOutside }
    ensures text { OnOk result (Appends (W.contents out.old) (W.contents out.new)
        (decimal number ++ codes "\n")) }
{
    write!(out, "{number}\n").map_err(|_| EveryFault::Output)
}

/// Writes the number of sets that the order allows, and a line feed; if there are 2^64 or more,
/// `more than 18446744073709551615`. The fault is TooMany if they can't be counted, as
/// `Order::count` has it, and then nothing is written; else Memory or Output. After Output a part
/// of the line may be written.
pub fn write_count<W: Write>(alloc: Global, order: &Order, out: &mut W) -> Result<(), EveryFault>
    ensures fault { IfErr result (IsUncounted (needs_in order.now) (length order.now)) }
    ensures text { OnOk result (Appends (W.contents out.old) (W.contents out.new)
        (count_text (length (every (needs_in order.now) (length order.now))))) }
{
    let count = order.count(alloc, MOST)?;
    if count < MOST {
        write_number(count, out)?;
        return Ok(());
    }
    write_bytes(b"more than 18446744073709551615\n", out)?;
    Ok(())
}
