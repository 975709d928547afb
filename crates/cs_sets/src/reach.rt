//! What each place needs by any chain, as rows of bits.
ghost use Rattle.std.specs.Prelude.{◌≡◌, ℕ, ◌<◌, ◌≤◌, length, IfOk};
ghost use Rattle.cs_sets.specs.Bits.{has_place};
ghost use Rattle.cs_sets.specs.Chains.{by_chain};
ghost use Rattle.cs_sets.specs.Rows.{AreReach, bit_in};

use crate::row::Row;
use cs_names::limits::MICRO_OPERATIONS;
use std::alloc::{AllocError, Global};

/// What place `k` needs by any chain: what row `k` of `rows` has, and what each of these needs by
/// any chain. `reach` has the rows of the places before `k`.
fn reach_row(rows: &[Row], reach: &[Row], k: usize) -> Row
    requires inside { k < length rows.now }
    requires few { length rows.now ≤ MICRO_OPERATIONS }
    requires made { length reach.now ≡ k }
    requires reached { AreReach rows.now reach.now k }
    ensures { (i : ℕ) → has_place result i ≡ by_chain (bit_in rows.now) i k }
{
    let mut row = Row::empty();
    for m in 0..k {
        if rows[k].has_place(m) {
            row.set(m);
            row.join(&reach[m]);
        }
    }
    row
}

/// For each place, a row of what it needs by any chain. Row `j` of `rows` has what place `j` needs
/// directly, only places before it. The only error is that memory runs out.
pub fn reach_of(alloc: Global, rows: &[Row]) -> Result<Vec<Row>, AllocError>
    requires { length rows.now ≤ MICRO_OPERATIONS }
    ensures long { IfOk result (λ reach. length reach.items ≡ length rows.now) }
    ensures reached { IfOk result (λ reach. AreReach rows.now reach.items (length rows.now)) }
{
    let mut reach = Vec::new(alloc);
    for k in 0..rows.len() {
        let row = reach_row(rows, &reach, k);
        reach.push(row)?;
    }
    Ok(reach)
}
