//! All allowed sets of an order, one after the other.
ghost use Rattle.std.specs.Prelude.{◌≡◌, length};
ghost use Rattle.std.specs.Iterator.{YieldsFirstBy, item_count};
ghost use Rattle.cs_sets.specs.Every.{every};
ghost use Rattle.cs_sets.specs.Orders.{needs_in};
ghost use Rattle.cs_sets.specs.Places.{places_of};

use crate::order::Order;
use crate::row::Row;
use cs_names::laws::know;
use std::marker::Model;

/// The allowed sets of an order that are still to come. They ascend: of two sets, the one that
/// lacks the first place in which they differ comes first. So the empty set is the first of all. As
/// an iterator it finds each set from the one before it, and allocates nothing. Contracts see the
/// list of the sets.
#[derive(Debug, Drop)]
pub struct Sets<'a> {
    order: &'a Order,
    // None after the last one
    next: Option<Row>,
}

impl<'a> Model for Sets<'a> {
    ghost use Rattle.std.specs.Prelude.{List, ℕ, length};
    ghost use Rattle.cs_sets.specs.Orders.{needs_in};
    ghost use Rattle.cs_sets.specs.Nexts.{AreKept, sets_from};

    ghost Value = { List (List ℕ) };

    ghost view = { λ sets. sets_from (needs_in sets.order.now) (length sets.order.now) sets.next };

    ghost invariant = { λ sets.
        AreKept (needs_in sets.order.now) (length sets.order.now) sets.next };
}

impl<'a> Sets<'a> {
    /// All allowed sets of the order, from the empty set on.
    pub fn of(order: &'a Order) -> Sets<'a>
        ensures { result ≡ every (needs_in order.now) (length order.now) }
    {
        // its contract says that each place needs only earlier ones
        know(order.len());
        Sets {
            order,
            next: Some(Row::empty()),
        }
    }
}

impl<'a> Iterator for Sets<'a> {
    type Item = Row;

    ghost next_gives = { YieldsFirstBy places_of (λ sets. sets) };

    ghost remaining = { item_count (λ sets. sets) };

    /// Removes the first set and returns it; None if there is none left.
    fn next(&mut self) -> Option<Row> {
        let set = self.next?;
        let mut after = set;
        if self.order.advance(&mut after) {
            self.next = Some(after);
        } else {
            self.next = None;
        }
        Some(set)
    }
}
