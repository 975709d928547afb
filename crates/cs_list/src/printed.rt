//! One micro-operation, or one state, as a plain line. The lines of JSON are in `json`.
ghost use Rattle.std.specs.Prelude.{◌≡◌, ◌++◌, Some, codes, decimal};
ghost use Rattle.std.specs.Option.{option_copied};
ghost use Rattle.cs_micro.specs.Texts.{op_text};
ghost use Rattle.cs_plan.specs.Texts.{recipe_text};
ghost use Rattle.cs_list.specs.Printed.{origin_text, same_text};

use cs_micro::MicroOp;
use cs_names::Path;
use cs_plan::Recipe;
use std::fmt;

/// Where a micro-operation came from, for the end of its line.
#[derive(Clone, Copy)]
pub struct Origin<'a> {
    /// The number of the trace's line, from 1; None if no option asks for it.
    pub line: Option<usize>,
    /// One path of the file that it changes; None if it changes none, or the file has no path.
    pub path: Option<&'a Path>,
}

impl fmt::Display for Origin<'_> {
    ghost output = { λ origin. Some (origin_text origin.line (option_copied origin.path)) };

    /// Writes ` line `, the number and the path; nothing without a number.
    fn fmt<W: fmt::Write>(&self, f: &mut fmt::Formatter<W>) -> fmt::Result {
        match (self.line, self.path) {
            (None, _) => Ok(()),
            (Some(line), None) => write!(f, " line {line}"),
            (Some(line), Some(path)) => write!(f, " line {line} {path}"),
        }
    }
}

/// A micro-operation with its place in the trace and its origin. Without the origin its line is
/// that of the plain list, which cs_plan's `Listing` writes: change both.
#[derive(Clone, Copy)]
pub struct OpLine<'a> {
    /// Its place among the trace's micro-operations, from 0.
    pub place: usize,
    /// The micro-operation.
    pub op: &'a MicroOp,
    /// Where it came from; nothing is printed of it if its line is None.
    pub origin: Origin<'a>,
}

impl fmt::Display for OpLine<'_> {
    ghost output = { λ l. Some
        (codes "op "
        ++ (decimal l.place
        ++ (codes " "
        ++ (op_text l.op.now
        ++ (origin_text l.origin.line (option_copied l.origin.path) ++ codes "\n"))))) };

    /// Writes `op `, the place, the micro-operation and its origin, with a line feed.
    fn fmt<W: fmt::Write>(&self, f: &mut fmt::Formatter<W>) -> fmt::Result {
        write!(f, "op {} {}{}\n", self.place, self.op, self.origin)
    }
}

/// The number of the first state with an equal tree, for the end of a state's line.
#[derive(Clone, Copy)]
struct Same {
    /// None if no option asks for it.
    first: Option<u32>,
}

impl fmt::Display for Same {
    ghost output = { λ same. Some (same_text same.first) };

    /// Writes ` same ` and the number; nothing without one.
    fn fmt<W: fmt::Write>(&self, f: &mut fmt::Formatter<W>) -> fmt::Result {
        match self.first {
            None => Ok(()),
            Some(first) => write!(f, " same {first}"),
        }
    }
}

/// A state of the plan. Without `first` its line is that of the plain list, which cs_plan's
/// `Listing` writes: change both.
#[derive(Clone, Copy)]
pub struct StateLine<'a> {
    /// From 0.
    pub number: usize,
    /// Which micro-operations it has.
    pub recipe: &'a Recipe,
    /// How many acknowledged lines it has.
    pub says: u32,
    /// The number of the first state with an equal tree, which may be its own; None if no option
    /// asks for it.
    pub first: Option<u32>,
}

impl fmt::Display for StateLine<'_> {
    ghost output = { λ l. Some
        (codes "state "
        ++ (decimal l.number
        ++ (codes " "
        ++ (recipe_text l.recipe.now
        ++ (codes " says " ++ (decimal l.says ++ (same_text l.first ++ codes "\n"))))))) };

    /// Writes `state `, the number, the recipe, ` says ` and how many acknowledged lines, and `
    /// same ` if asked for, with a line feed.
    fn fmt<W: fmt::Write>(&self, f: &mut fmt::Formatter<W>) -> fmt::Result {
        let same = Same { first: self.first };
        write!(
            f,
            "state {} {} says {}{same}\n",
            self.number, self.recipe, self.says
        )
    }
}
