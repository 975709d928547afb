//! All allowed sets of an order by their numbers.
ghost use Rattle.std.specs.Prelude.{◌≡◌, ◌<◌, ◌≤◌, ◌^◌, ◌⊎◌, [], length};
ghost use Rattle.std.specs.Prelude.{slice_index_or, IfErr, IfOk};
ghost use Rattle.cs_sets.specs.declared.fault.CountFault.TheVariants.{TooMany};
ghost use Rattle.cs_sets.specs.Counting.{HasManyFutures};
ghost use Rattle.cs_sets.specs.Every.{every};
ghost use Rattle.cs_sets.specs.Orders.{needs_in};
ghost use Rattle.cs_sets.specs.Places.{places_of};

use crate::count::FUTURES;
use crate::draw::set_numbered;
use crate::fault::CountFault;
use crate::order::Order;
use crate::row::Row;
use cs_names::laws::know;
use std::alloc::{AllocError, Global};
use std::collections::BTreeMap;
use std::marker::Model;

/// More than the number of sets may be: 2^64.
const MOST: u128 = 1 << 64;

/// All allowed sets of an order, each by its number, from 0, in the order of `Sets`. Contracts see
/// the list of the sets.
#[derive(Debug, Drop)]
pub struct Numbers<'a> {
    order: &'a Order,
    // how many sets there are
    count: u64,
    // for some futures, how many sets extend a set that has it
    known: BTreeMap<Row, u128>,
}

impl<'a> Model for Numbers<'a> {
    ghost use Rattle.std.specs.Prelude.{List, ℕ, length};
    ghost use Rattle.std.specs.BTreeMap.{get};
    ghost use Rattle.cs_sets.specs.Drawing.{IsTable, row_cmp};
    ghost use Rattle.cs_sets.specs.Every.{every};
    ghost use Rattle.cs_sets.specs.Orders.{needs_in};

    ghost Value = { List (List ℕ) };

    ghost view = { λ n. every (needs_in n.order.now) (length n.order.now) };

    ghost invariant = { λ n.
        IsTable (needs_in n.order.now) (length n.order.now) n.count (get row_cmp n.known) };
}

impl<'a> Numbers<'a> {
    /// The allowed sets of the order. The error is TooMany if they can't be counted, as
    /// `Order::count` has it, or if there are 2^64 or more; else Memory.
    pub fn of(alloc: Global, order: &'a Order) -> Result<Numbers<'a>, CountFault>
        ensures sets { IfOk result
            (λ sets. sets ≡ every (needs_in order.now) (length order.now)) }
        ensures fault { IfErr result (λ fault. fault ≡ TooMany
            → HasManyFutures (needs_in order.now) (length order.now) FUTURES
            ⊎ (2 ^ 64 ≤ length (every (needs_in order.now) (length order.now)))) }
    {
        let count = order.count(alloc, MOST)?;
        if count >= MOST {
            return Err(CountFault::TooMany);
        }
        Ok(Numbers {
            order,
            count: count as u64,
            known: BTreeMap::new(alloc),
        })
    }

    /// How many sets there are: at least one, the empty set.
    pub fn len(&self) -> u64
        ensures value { result ≡ length self.now }
        ensures some { 0 < result }
    {
        self.count
    }

    /// The set with this number, from 0; it must be below `len`. Counts that are made for it are
    /// kept for later calls. The only error is that memory runs out; then the numbers are
    /// unchanged, too.
    pub fn set(&mut self, number: u64) -> Result<Row, AllocError>
        requires { number < length self.old }
        ensures set { IfOk result (λ set. places_of set ≡ slice_index_or self.old number []) }
        ensures same { self.new ≡ self.old }
    {
        set_numbered(
            self.order.needed(),
            &mut self.known,
            MOST,
            u128::from(number),
        )
    }
}
