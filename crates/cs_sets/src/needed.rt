//! For each place, the places that need it: the columns of the rows of what each place needs.
ghost use Rattle.std.specs.Prelude.{◌≡◌, ◌<◌, ◌≤◌, ◌&&◌, ℕ, length, nat_lt, IfOk};
ghost use Rattle.cs_sets.specs.Bits.{has_place};
ghost use Rattle.cs_sets.specs.Rows.{AreColumns, bit_in};

use crate::row::Row;
use cs_names::limits::MICRO_OPERATIONS;
use std::alloc::{AllocError, Global};

/// The places that need `place`: those whose row in `rows` has it.
fn needed_row(rows: &[Row], place: usize) -> Row
    requires few { length rows.now ≤ MICRO_OPERATIONS }
    requires inside { place < length rows.now }
    ensures { (j : ℕ)
        → has_place result j ≡ (nat_lt j (length rows.now) && bit_in rows.now place j) }
{
    let mut needed = Row::empty();
    for j in 0..rows.len() {
        if rows[j].has_place(place) {
            needed.set(j);
        }
    }
    needed
}

/// For each place, a row of the places that need it. Each row of `rows` has what its place needs;
/// `Order` passes what it needs by any chain. The only error is that memory runs out.
pub fn needed_of(alloc: Global, rows: &[Row]) -> Result<Vec<Row>, AllocError>
    requires { length rows.now ≤ MICRO_OPERATIONS }
    ensures { IfOk result (λ needed. AreColumns rows.now needed.items) }
{
    let mut needed = Vec::new(alloc);
    for place in 0..rows.len() {
        needed.push(needed_row(rows, place))?;
    }
    Ok(needed)
}
