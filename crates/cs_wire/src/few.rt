//! A list of at most 16 items, which needs no allocation.

ghost use Rattle.std.specs.Prelude.{◌≤◌};
ghost use Rattle.cs_names.specs.declared.limits.TheConstants.{WALK_NAMES};

use cs_names::limits::WALK_NAMES;

/// The most names that a walk can have, and the most qids that its reply can have: 16.
const PLACES: usize = WALK_NAMES as usize;

/// At most 16 items, in the order that they came: the first `count` of `places`.
#[derive(Drop)]
pub(crate) struct Few<T: Copy> {
    places: [T; PLACES],
    count: usize,
    ghost in_places: { count ≤ WALK_NAMES },
}

impl<T: Copy> Few<T> {
    ghost use Rattle.std.specs.Prelude.{◌≡◌, ◌<◌, ◌++◌, ◌+◌, [], ◌∷◌};
    ghost use Rattle.cs_wire.specs.Few.{items_of};

    /// An empty list. `blank` fills the unused places, which `as_slice` leaves out.
    pub(crate) fn new(blank: T) -> Few<T>
        ensures items { items_of result ≡ [] }
        ensures count { result.count ≡ 0 }
    {
        Few {
            places: [blank; PLACES],
            count: 0,
        }
    }

    /// Adds an item at the end. The list must have fewer than 16 items.
    pub(crate) fn push(&mut self, item: T)
        requires { self.old.count < WALK_NAMES }
        ensures items { items_of self.new ≡ items_of self.old ++ item ∷ [] }
        ensures count { self.new.count ≡ self.old.count + 1 }
    {
        self.places[self.count] = item;
        self.count += 1;
    }

    /// The items, in the order that they came.
    pub(crate) fn as_slice(&self) -> &[T]
        ensures { result.now ≡ items_of self.now }
    {
        &self.places[..self.count]
    }
}
