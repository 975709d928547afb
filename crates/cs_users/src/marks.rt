//! A bit for each row, which says whether that row is a member of a group. If a group has many
//! members, reading one bit is faster than a search.
ghost use Rattle.std.specs.Prelude.{◌≡◌, ℕ, ◌<◌, ◌/◌, ◌==◌, ◌||◌, length, IfOk};
ghost use Rattle.cs_users.specs.Marks.{AreMarks, is_marked};

use std::alloc::{AllocError, Global};

/// A bit for each row, 64 to a word. There may be one word more than the rows need.
#[derive(Debug, Drop)]
pub(crate) struct Marks {
    words: Vec<u64>,
}

/// Sets the bit of the row at that place, which must be in one of the words.
fn mark(words: &mut Vec<u64>, place: usize)
    requires { place / 64 < length words.old.items }
    ensures long { length words.new.items ≡ length words.old.items }
    ensures marked { (other : ℕ)
        → is_marked words.new.items other ≡ (place == other || is_marked words.old.items other) }
{
    words[place / 64] |= 1 << (place % 64);
}

impl Marks {
    /// The bits of `count` rows, set at these places, which count from 0. A place past the last row
    /// would be ignored, but a group's members are all places of rows. The only error is that
    /// memory runs out.
    pub(crate) fn of(alloc: Global, count: usize, places: &[usize]) -> Result<Marks, AllocError>
        ensures { IfOk result (λ marks. AreMarks count places.now marks.words.items) }
    {
        let mut words = vec![in alloc; 0; count / 64 + 1]?;
        for place in places {
            if *place < count {
                mark(&mut words, *place);
            }
        }
        Ok(Marks { words })
    }

    /// Whether the bit of the row at that place is set; false past the last word.
    pub(crate) fn is_marked(&self, place: usize) -> bool
        ensures { result ≡ is_marked self.now.words.items place }
    {
        match self.words.get(place / 64) {
            Some(word) => word >> (place % 64) & 1 == 1,
            None => false,
        }
    }
}
