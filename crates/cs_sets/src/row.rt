//! Sets of places, as bits.
ghost use Rattle.std.specs.Prelude.{◌≡◌, ◌==◌, ◌||◌, ◌&&◌, ◌↔◌, not, ℕ, ◌<◌, ◌≤◌, false, true, nat_lt};
ghost use Rattle.std.specs.Prelude.{IsTrue, MatchOption};
ghost use Rattle.cs_sets.specs.Bits.{has_place};
ghost use Rattle.cs_sets.specs.Sound.{IsSound};
ghost use Rattle.cs_sets.specs.Finding.{HasNone, IsNext};

use cs_names::limits::MICRO_OPERATIONS;

/// How many words of 64 bits a row has: a bit for each of MICRO_OPERATIONS places. Change both
/// together.
const WORDS: usize = 16;

/// A set of places below MICRO_OPERATIONS, as a bit for each: 64 places to a word, from the lowest
/// bit on. (Rows are also compared, by their words, so that maps and sorts can use them; that order
/// isn't the one of allowed sets.)
#[derive(Clone, Copy, Debug, PartialEq, Eq, PartialOrd, Ord)]
pub struct Row {
    words: [u64; WORDS],
}

impl Row {
    /// The row without places.
    pub fn empty() -> Row
        ensures { (k : ℕ) → has_place result k ≡ false }
    {
        Row { words: [0; WORDS] }
    }

    /// The set of the first `end` places, at most MICRO_OPERATIONS: those from 0 on, without `end`
    /// itself.
    pub fn below(end: usize) -> Row
        requires { end ≤ MICRO_OPERATIONS }
        ensures { (k : ℕ) → has_place result k ≡ nat_lt k end }
    {
        let mut row = Row::empty();
        for place in 0..end {
            row.set(place);
        }
        row
    }

    /// Does nothing: callers need its contract, that the row has 16 words of 64 bits.
    pub(crate) fn know_words(&self)
        ensures { IsSound self.now }
    {
        for w in 0..WORDS {
            let _word = self.words[w];
        }
    }

    /// Whether the row has the place, which must be below MICRO_OPERATIONS.
    pub fn has_place(&self, place: usize) -> bool
        requires { place < MICRO_OPERATIONS }
        ensures { result ≡ has_place self.now place }
    {
        (self.words[place / 64] >> (place % 64)) & 1 == 1
    }

    /// Adds the place, which must be below MICRO_OPERATIONS. One that the row has already changes
    /// nothing.
    pub fn set(&mut self, place: usize)
        requires { place < MICRO_OPERATIONS }
        ensures { (k : ℕ) → has_place self.new k ≡ (k == place || has_place self.old k) }
    {
        self.words[place / 64] |= 1u64 << (place % 64);
    }

    /// Removes the place, which must be below MICRO_OPERATIONS. One that the row doesn't have
    /// changes nothing.
    pub fn clear(&mut self, place: usize)
        requires { place < MICRO_OPERATIONS }
        ensures { (k : ℕ) → has_place self.new k ≡ (has_place self.old k && not (k == place)) }
    {
        self.words[place / 64] &= !(1u64 << (place % 64));
    }

    /// Adds every place of the other row.
    pub fn join(&mut self, other: &Row)
        ensures { (k : ℕ) → has_place self.new k ≡ (has_place self.old k || has_place other.now k) }
    {
        for w in 0..WORDS {
            self.words[w] |= other.words[w];
        }
    }

    /// Removes every place of the other row.
    pub fn remove(&mut self, other: &Row)
        ensures { (k : ℕ) → has_place self.new k
            ≡ (has_place self.old k && not (has_place other.now k)) }
    {
        for w in 0..WORDS {
            self.words[w] = (self.words[w] | other.words[w]) ^ other.words[w];
        }
    }

    /// Whether the other row has every place of this row; true if this row has none.
    pub fn is_within(&self, other: &Row) -> bool
        ensures { IsTrue result ↔
            ((k : ℕ) → has_place self.now k ≡ true → has_place other.now k ≡ true) }
    {
        for w in 0..WORDS {
            if self.words[w] | other.words[w] != other.words[w] {
                return false;
            }
        }
        true
    }

    /// The first place from `first` on and before `end` that the row has; None if there is none.
    /// `end` is at most MICRO_OPERATIONS.
    pub fn next_from(&self, first: usize, end: usize) -> Option<usize>
        requires { end ≤ MICRO_OPERATIONS }
        ensures { MatchOption result (HasNone (has_place self.now) first end)
            (λ place. IsNext (has_place self.now) first end place) }
    {
        let mut at = first;
        while at < end {
            let word = self.words[at / 64] >> (at % 64);
            if word != 0 {
                let place = at + word.trailing_zeros() as usize;
                if place < end {
                    return Some(place);
                }
                return None;
            }
            at = (at / 64 + 1) * 64;
        }
        None
    }
}
