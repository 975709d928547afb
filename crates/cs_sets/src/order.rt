//! An order of places, and the sets of them that it allows.
ghost use Rattle.std.specs.Prelude.{◌≡◌, ◌↔◌, ◌∷◌, [], ℕ, ◌<◌, ◌≤◌, length, IfOk, IsTrue, true, false};
ghost use Rattle.std.specs.Prelude.{if◌then◌else◌, min, IfErr};
ghost use Rattle.cs_sets.specs.declared.fault.CountFault.TheVariants.{TooMany};
ghost use Rattle.cs_sets.specs.Bits.{has_place};
ghost use Rattle.cs_sets.specs.Chains.{IsBackward, by_chain};
ghost use Rattle.cs_sets.specs.Counting.{HasManyFutures};
ghost use Rattle.cs_sets.specs.Every.{every};
ghost use Rattle.cs_sets.specs.Following.{every_from};
ghost use Rattle.cs_sets.specs.Orders.{needs_in, table};
ghost use Rattle.cs_sets.specs.Places.{IsSet, places_of};
ghost use Rattle.cs_sets.specs.Reach.{IsTransitive};
ghost use Rattle.cs_sets.specs.Rows.{bit_in, needed_in};
ghost use Rattle.cs_sets.specs.Sets.{IsAllowed};

use crate::count::{FUTURES, count_sets};
use crate::fault::CountFault;
use crate::needed::needed_of;
use crate::next::next_set;
use crate::reach::reach_of;
use crate::row::Row;
use cs_names::limits::MICRO_OPERATIONS;
use std::alloc::{AllocError, Global};
use std::marker::Model;

/// Which places each place needs: only earlier ones. Contracts see a table, whose entries say for
/// each place and each earlier one whether it is needed.
#[derive(Debug, Drop)]
pub struct Order {
    /// For each place, the places that it needs.
    rows: Vec<Row>,
    /// For each place, the places that it needs by any chain: directly, or because one of them
    /// needs another.
    reach: Vec<Row>,
    /// For each place, the places that need it by any chain.
    needed: Vec<Row>,
}

impl Model for Order {
    ghost use Rattle.std.specs.Prelude.{List, Bool, length};
    ghost use Rattle.cs_sets.specs.Orders.{table};
    ghost use Rattle.cs_sets.specs.Rows.{IsKept, bit_in};

    ghost Value = { List (List Bool) };

    ghost view = { λ order. table (bit_in order.rows.items) (length order.rows.items) };

    ghost invariant = { λ order. IsKept order.rows.items order.reach.items order.needed.items };
}

impl Order {
    /// The order in which place `j` needs the places of row `j`. There are at most MICRO_OPERATIONS
    /// rows, and each has only places before its own. The only error is that memory runs out.
    pub fn of(alloc: Global, rows: Vec<Row>) -> Result<Order, AllocError>
        requires few { length rows.items ≤ MICRO_OPERATIONS }
        requires backward { IsBackward (bit_in rows.items) }
        ensures value { IfOk result
            (λ order. order ≡ table (bit_in rows.items) (length rows.items)) }
        ensures long { IfOk result (λ order. length order ≡ length rows.items) }
        ensures needs { IfOk result (λ order. needs_in order ≡ bit_in rows.items) }
    {
        let reach = reach_of(alloc, &rows)?;
        let needed = needed_of(alloc, &reach)?;
        Ok(Order {
            rows,
            reach,
            needed,
        })
    }

    /// How many places there are. (The clause `backward` says of every order that a place needs
    /// only places before it.)
    pub fn len(&self) -> usize
        ensures value { result ≡ length self.now }
        ensures few { result ≤ MICRO_OPERATIONS }
        ensures backward { IsBackward (needs_in self.now) }
    {
        self.rows.len()
    }

    /// Whether place `j` needs place `i` directly: the later place is the second argument. False if
    /// `i` isn't before `j`. Both must be places of the order. No command calls this.
    pub fn needs(&self, i: usize, j: usize) -> bool
        requires first { i < length self.now }
        requires second { j < length self.now }
        ensures { result ≡ needs_in self.now i j }
    {
        self.rows[j].has_place(i)
    }

    /// Whether place `j` needs place `i` by any chain: directly, or because a place that it needs
    /// needs `i` by a chain. The later place is the second argument. False if `i` isn't before `j`.
    /// Both must be places of the order.
    pub fn needs_by_chain(&self, i: usize, j: usize) -> bool
        requires first { i < length self.now }
        requires second { j < length self.now }
        ensures { result ≡ by_chain (needs_in self.now) i j }
    {
        self.reach[j].has_place(i)
    }

    /// Whether everything that place `j` needs directly is among these members.
    fn needs_only(&self, j: usize, members: &Row) -> bool
        requires { j < length self.now }
        ensures backward { IsBackward (needs_in self.now) }
        ensures value { IsTrue result
            ↔ ((i : ℕ) → needs_in self.now i j ≡ true → has_place members.now i ≡ true) }
    {
        self.rows[j].is_within(members)
    }

    /// Whether exactly these places are an allowed set: they ascend strictly, each is in range, and
    /// all that each needs is among them. True if there are none.
    pub fn is_allowed(&self, places: &[u32]) -> bool
        ensures { IsTrue result ↔ IsAllowed (needs_in self.now) (length self.now) places.now }
    {
        let mut members = Row::empty();
        let mut next = 0usize;
        for place in places {
            let place = *place as usize;
            if place < next {
                return false;
            }
            if place >= self.len() {
                return false;
            }
            if !self.needs_only(place, &members) {
                return false;
            }
            members.set(place);
            next = place + 1;
        }
        true
    }

    /// Makes an allowed set the next one in the order of all, which `Sets` says. False if it was
    /// the last; then it is empty afterwards, which is the first set. It allocates nothing.
    pub fn advance(&self, members: &mut Row) -> bool
        requires { IsSet (needs_in self.now) (length self.now) members.old }
        ensures set { IsSet (needs_in self.now) (length self.now) members.new }
        ensures follows { every_from (needs_in self.now) (length self.now) (places_of members.old)
            ≡ places_of members.old ∷ (if result
            then every_from (needs_in self.now) (length self.now) (places_of members.new)
            else []) }
        ensures last { result ≡ false → places_of members.new ≡ [] }
    {
        next_set(&self.rows, members)
    }

    /// How many allowed sets there are, or `most` if there are more. The error is TooMany if for
    /// some place the sets of the places below it have more than FUTURES different futures (the
    /// module `count` says what these are), else Memory.
    pub fn count(&self, alloc: Global, most: u128) -> Result<u128, CountFault>
        ensures count { IfOk result
            (λ count. count ≡ min (length (every (needs_in self.now) (length self.now))) most) }
        ensures fault { IfErr result (λ fault. fault ≡ TooMany
            → HasManyFutures (needs_in self.now) (length self.now) FUTURES) }
    {
        count_sets(alloc, self.needed(), most)
    }

    /// For each place, a row of the places that need it by any chain. (The other clauses are laws
    /// of every order.)
    pub(crate) fn needed(&self) -> &[Row]
        ensures long { length result.now ≡ length self.now }
        ensures few { length result.now ≤ MICRO_OPERATIONS }
        ensures backward { IsBackward (needs_in self.now) }
        ensures chains { needed_in result.now ≡ by_chain (needs_in self.now) }
        ensures passed_on { IsTransitive (by_chain (needs_in self.now)) }
        ensures sets { every (by_chain (needs_in self.now)) (length self.now)
            ≡ every (needs_in self.now) (length self.now) }
    {
        &self.needed
    }
}
