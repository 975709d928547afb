//! For each place of an order, the places that need it by any chain: a column of the table whose
//! rows say what each place needs.
ghost use Rattle.std.specs.Prelude.{◌≡◌, ◌<◌, ◌≤◌, ◌&&◌, ℕ, length, nat_lt, IfOk};
ghost use Rattle.cs_sets.specs.Bits.{has_place};
ghost use Rattle.cs_sets.specs.Chains.{by_chain};
ghost use Rattle.cs_sets.specs.Orders.{needs_in};
ghost use Rattle.cs_sets.specs.Rows.{needed_in};

use cs_names::laws::know;
use cs_sets::{Order, Row};
use std::alloc::{AllocError, Global};

/// A row of the places that need `place` by any chain; all are after it.
fn column_of(order: &Order, place: usize) -> Row
    requires { place < length order.now }
    ensures { (j : ℕ) → has_place result j
        ≡ (nat_lt j (length order.now) && by_chain (needs_in order.now) place j) }
{
    // The contract of `len` says that an order has at most MICRO_OPERATIONS places.
    know(order.len());
    let mut column = Row::empty();
    for j in 0..order.len() {
        if order.needs_by_chain(place, j) {
            column.set(j);
        }
    }
    column
}

/// For each place of the order, a row of the places that need it by any chain.
pub fn columns_of(alloc: Global, order: &Order) -> Result<Vec<Row>, AllocError>
    ensures long { IfOk result (λ columns. length columns.items ≡ length order.now) }
    ensures chains { IfOk result (λ columns. (i j : ℕ) → i < length order.now
        → needed_in columns.items i j
        ≡ (nat_lt j (length order.now) && by_chain (needs_in order.now) i j)) }
{
    let mut columns = Vec::new(alloc);
    for place in 0..order.len() {
        columns.push(column_of(order, place))?;
    }
    Ok(columns)
}
