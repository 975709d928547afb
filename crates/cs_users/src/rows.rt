//! The rows of a users file, in the order of its lines, each found by its name.
ghost use Rattle.std.specs.Prelude.{◌≡◌, ◌<◌, [], ◌∷◌, ◌++◌, false, length, slice_index_or, IfOk};
ghost use Rattle.cs_users.specs.Groups.{place_of, somebody_at};
ghost use Rattle.cs_users.specs.Members.{is_known, same_name};
ghost use Rattle.cs_users.specs.Rows.{AreNamed, none_name};

use crate::row::Row;
use std::alloc::{AllocError, Global};
use std::collections::HashMap;
use std::marker::Model;

/// Rows with legal names, all different. Contracts see the list of the rows.
#[derive(Debug, Drop)]
pub(crate) struct Rows {
    rows: Vec<Row>,
    // the place of each name's row
    places: HashMap<Vec<u8>, usize>,
}

impl Model for Rows {
    ghost use Rattle.std.specs.Prelude.{List};
    ghost use Rattle.cs_users.specs.Rows.{Row};

    ghost Value = { List Row };

    ghost use Rattle.cs_users.specs.Places.{IsIndexed};

    ghost view = { λ rows. rows.rows.items };

    ghost invariant = { λ rows. IsIndexed rows.rows.items rows.places };
}

/// Whether the name is `none`. That user is a member of no group, leads none and owns nothing.
pub(crate) fn is_user_none(user: &[u8]) -> bool
    ensures { result ≡ same_name user.now none_name }
{
    user == b"none".as_slice()
}

impl Rows {
    /// No rows. It takes no memory.
    pub(crate) fn new(alloc: Global) -> Rows
        ensures { result ≡ [] }
    {
        Rows {
            rows: Vec::new(alloc),
            places: HashMap::new(alloc),
        }
    }

    /// Adds a row, whose name no row has yet, at the end. An error drops all rows, the new one too.
    pub(crate) fn with_row(self, alloc: Global, row: Row) -> Result<Rows, AllocError>
        requires { is_known self row.name ≡ false }
        ensures { IfOk result (λ more. more ≡ self ++ row ∷ []) }
    {
        let Rows {
            mut rows,
            mut places,
        } = self;
        let name = Vec::from_slice(alloc, row.name())?;
        places.insert(name, rows.len())?;
        rows.push(row)?;
        Ok(Rows { rows, places })
    }

    /// A copy of the rows. The only error is that memory runs out.
    pub(crate) fn try_clone(&self, alloc: Global) -> Result<Rows, AllocError>
        ensures { IfOk result (λ copy. copy ≡ self.now) }
    {
        let mut copy = Rows::new(alloc);
        for row in &self.rows {
            copy = copy.with_row(alloc, row.try_clone()?)?;
        }
        Ok(copy)
    }

    /// The number of rows. (The clause `named` is a law of all rows.)
    pub(crate) fn len(&self) -> usize
        ensures value { result ≡ length self.now }
        ensures named { AreNamed self.now }
    {
        self.rows.len()
    }

    /// The row at that place, counted from 0. There must be one. (The clause `named` is a law of
    /// all rows.)
    pub(crate) fn at(&self, place: usize) -> &Row
        requires { place < length self.now }
        ensures row { result.now ≡ slice_index_or self.now place result.now }
        ensures named { AreNamed self.now }
    {
        &self.rows[place]
    }

    /// The place of the row of that name, from 0; None if no row has it.
    pub(crate) fn place_of_name(&self, name: &[u8]) -> Option<usize>
        ensures { result ≡ place_of self.now name.now }
    {
        self.places.get(name).copied()
    }

    /// Whether a row has that name.
    pub(crate) fn knows(&self, name: &[u8]) -> bool
        ensures { result ≡ is_known self.now name.now }
    {
        self.place_of_name(name).is_some()
    }

    /// The place of the row of that name, from 0; None if no row has it or the name is `none`.
    pub(crate) fn place_unless_none(&self, name: &[u8]) -> Option<usize>
        ensures { result ≡ somebody_at self.now name.now }
    {
        if is_user_none(name) {
            return None;
        }
        self.place_of_name(name)
    }
}
