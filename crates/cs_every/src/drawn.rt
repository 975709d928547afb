//! Sets drawn at random from all that an order allows, each with the same chance.
ghost use Rattle.std.specs.Prelude.{◌≡◌, ◌<◌, length, IfErr, IfOk, OnOk};
ghost use Rattle.std.specs.List.{Contains};
ghost use Rattle.cs_sets.specs.Every.{every};
ghost use Rattle.cs_sets.specs.Orders.{needs_in};
ghost use Rattle.cs_sets.specs.Places.{places_of};
ghost use Rattle.cs_every.specs.Drawn.{WritesSample};
ghost use Rattle.cs_every.specs.Faults.{IsUndrawn};

use crate::fault::EveryFault;
use crate::printed::write_set;
use cs_names::laws::know;
use cs_sets::{Numbers, Order, Row};
use rand::{RngExt, SeedableRng};
use rand_pcg::Pcg64;
use std::alloc::{AllocError, Global};
use std::io::Write;

/// A set drawn from all, each with the same chance; it may be drawn again. The only error is that
/// memory runs out.
fn draw_set(sets: &mut Numbers<'_>, generator: &mut Pcg64) -> Result<Row, AllocError>
    ensures drawn { IfOk result (λ set. Contains sets.old (places_of set)) }
    ensures same { sets.new ≡ sets.old }
{
    let number = generator.random_range(0..sets.len());
    sets.set(number)
}

/// Writes `count` sets, drawn one after the other, each from all sets that the order allows; a set
/// may come twice. The same seed gives the same sets. The fault is TooMany if they can't be
/// counted, as `Order::count` has it, or if there are 2^64 or more: then nothing is written. It is
/// Memory or Output otherwise: then some of the lines may be written.
pub fn write_sample<W: Write>(
    alloc: Global,
    order: &Order,
    seed: u64,
    count: u32,
    out: &mut W,
) -> Result<(), EveryFault>
    ensures fault { IfErr result (IsUndrawn (needs_in order.now) (length order.now)) }
    ensures sample { OnOk result (WritesSample (every (needs_in order.now) (length order.now)) count
        (W.contents out.old) (W.contents out.new)) }
{
    let mut sets = Numbers::of(alloc, order)?;
    let mut generator = Pcg64::seed_from_u64(seed);
    for _ in 0..count {
        let set = draw_set(&mut sets, &mut generator)?;
        write_set(&set, out)?;
    }
    Ok(())
}
