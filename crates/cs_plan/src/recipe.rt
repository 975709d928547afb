//! The recipe of a state: which of a trace's micro-operations it has, those that reached the disk.
ghost use Rattle.std.specs.Prelude.{◌≡◌, Some};
ghost use Rattle.std.specs.Cmp.{partial_equiv_from_equiv};
ghost use Rattle.std.specs.Cmp.Lexicographic.{nat_list_eq_equiv};
ghost use Rattle.cs_names.specs.Texts.{same_bytes};
ghost use Rattle.cs_plan.specs.Texts.{places_text, recipe_text};

use std::fmt;
use std::marker::Model;

/// A list of places of micro-operations, which count from 0 in the trace's order: a pick.
#[derive(Debug, Drop)]
pub struct Places {
    /// The places, in the order in which they were given.
    places: Vec<u32>,
}

impl Model for Places {
    ghost use Rattle.std.specs.Prelude.{List, ℕ};

    ghost Value = { List ℕ };

    ghost view = { λ places. places.places.items };
}

impl Places {
    /// The places of this list, in its order. Whether they ascend, and whether a trace has them,
    /// isn't checked here, but by `Plan::make`.
    pub fn of(places: Vec<u32>) -> Places
        ensures { result ≡ places.items }
    {
        Places { places }
    }

    /// The places in their order.
    pub fn as_slice(&self) -> &[u32]
        ensures { result.now ≡ self.now }
    {
        self.places.as_slice()
    }
}

impl PartialEq for Places {
    ghost eq = { same_bytes };

    ghost laws = { partial_equiv_from_equiv nat_list_eq_equiv };

    /// Whether both have equal places in the same order.
    fn eq(&self, other: &Places) -> bool {
        self.places == other.places
    }
}

impl fmt::Display for Places {
    ghost output = { λ places. Some (places_text places) };

    /// Prints the places with commas between, as in `0,2,5`; `-` if there are none.
    fn fmt<W: fmt::Write>(&self, f: &mut fmt::Formatter<W>) -> fmt::Result {
        let Some((first, others)) = self.places.split_first() else {
            return f.write_str("-");
        };
        write!(f, "{first}")?;
        for place in others {
            write!(f, ",{place}")?;
        }
        Ok(())
    }
}

/// Which micro-operations a state has, by their places. `members::places_of` lists them.
#[derive(Debug, Drop, PartialEq)]
pub enum Recipe {
    /// The first micro-operations of the trace, so many.
    Prefix(u32),
    /// Those before the second place (the end), without the first place (the missing one) and all
    /// that need it by any chain.
    Hole(u32, u32),
    /// Those at these places. In a plan they ascend strictly, and a crash may leave the set.
    Pick(Places),
}

impl fmt::Display for Recipe {
    ghost output = { λ recipe. Some (recipe_text recipe) };

    /// Prints the recipe as the list of a plan does: its kind and its numbers, as in `prefix 3`,
    /// `hole 2 4` and `pick 0,2,5`.
    fn fmt<W: fmt::Write>(&self, f: &mut fmt::Formatter<W>) -> fmt::Result {
        match self {
            Recipe::Prefix(end) => write!(f, "prefix {end}"),
            Recipe::Hole(missing, end) => write!(f, "hole {missing} {end}"),
            Recipe::Pick(places) => write!(f, "pick {places}"),
        }
    }
}
