//! The allowed set after an allowed set, found from that set only. The order of the sets is in
//! `sets`.
ghost use Rattle.std.specs.Prelude.{◌≡◌, ◌∷◌, [], ◌≤◌, ℕ, false, length, if◌then◌else◌};
ghost use Rattle.cs_sets.specs.Bits.{has_place};
ghost use Rattle.cs_sets.specs.Chains.{IsBackward};
ghost use Rattle.cs_sets.specs.Following.{every_from};
ghost use Rattle.cs_sets.specs.Nexts.{IsAdded};
ghost use Rattle.cs_sets.specs.Places.{IsSet, IsWithin, places_of};
ghost use Rattle.cs_sets.specs.Rows.{bit_in};

use crate::row::Row;
use cs_names::limits::MICRO_OPERATIONS;

/// Finds the last place that the set lacks although it has all that this place needs; adds it, and
/// removes all places after it. True if there is such a place; else the set is empty afterwards.
/// Row `j` of `rows` has what place `j` needs. It allocates nothing.
fn add_last(rows: &[Row], members: &mut Row) -> bool
    requires few { length rows.now ≤ MICRO_OPERATIONS }
    requires backward { IsBackward (bit_in rows.now) }
    requires within { IsWithin (length rows.now) members.old }
    ensures { IsAdded (bit_in rows.now) (length rows.now) (has_place members.old)
        (has_place members.new) result }
{
    let mut place = rows.len();
    while place > 0 {
        place -= 1;
        if members.has_place(place) {
            members.clear(place);
        } else if rows[place].is_within(members) {
            members.set(place);
            return true;
        }
    }
    false
}

/// Makes an allowed set the one after it in the order of all allowed sets. False if it was the
/// last; then it is empty afterwards, which is the first set. Row `j` of `rows` has what place `j`
/// needs. It allocates nothing.
pub fn next_set(rows: &[Row], members: &mut Row) -> bool
    requires few { length rows.now ≤ MICRO_OPERATIONS }
    requires backward { IsBackward (bit_in rows.now) }
    requires set { IsSet (bit_in rows.now) (length rows.now) members.old }
    ensures set { IsSet (bit_in rows.now) (length rows.now) members.new }
    ensures follows { every_from (bit_in rows.now) (length rows.now) (places_of members.old)
        ≡ places_of members.old ∷ (if result
        then every_from (bit_in rows.now) (length rows.now) (places_of members.new) else []) }
    ensures last { result ≡ false → places_of members.new ≡ [] }
{
    add_last(rows, members)
}
