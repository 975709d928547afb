//! The list of a trace's micro-operations and of its states, as `crashfs list` prints it.
ghost use Rattle.std.specs.Prelude.{◌≡◌, Some};
ghost use Rattle.cs_plan.specs.Lists.{list_text, op_lines, state_lines};

use crate::members::says_in;
use crate::scene::Scene;
use cs_micro::MicroOp;
use std::fmt;

/// The lines of a trace's micro-operations, to be printed.
#[derive(Clone, Copy)]
struct OpLines<'a> {
    /// The micro-operations of the trace.
    ops: &'a [MicroOp],
}

impl fmt::Display for OpLines<'_> {
    ghost output = { λ lines. Some (op_lines lines.ops.now) };

    /// Prints a line for each micro-operation, in order: `op`, its place from 0, and its text.
    fn fmt<W: fmt::Write>(&self, f: &mut fmt::Formatter<W>) -> fmt::Result {
        for (place, op) in self.ops.iter().enumerate() {
            write!(f, "op {place} {op}\n")?;
        }
        Ok(())
    }
}

/// The lines of a scene's states, to be printed.
#[derive(Clone, Copy)]
struct StateLines<'a> {
    /// The scene whose plan has the states.
    scene: &'a Scene,
}

impl fmt::Display for StateLines<'_> {
    ghost output = { λ lines. Some (state_lines lines.scene.now) };

    /// Prints a line for each state, in order: `state`, its number from 0, its recipe, `says`, and
    /// how many acknowledged lines the state has.
    fn fmt<W: fmt::Write>(&self, f: &mut fmt::Formatter<W>) -> fmt::Result {
        let ops = self.scene.micros().ops();
        for (number, recipe) in self.scene.plan().recipes().iter().enumerate() {
            let says = says_in(ops, self.scene.order(), recipe);
            write!(f, "state {number} {recipe} says {says}\n")?;
        }
        Ok(())
    }
}

/// The list of a scene, as it is printed: a line for each micro-operation, with its place; and then
/// one for each state, with its number, its recipe, and how many acknowledged lines it has.
/// `crashfs list` without options prints it. With options, `printed` of cs_list prints the same
/// lines with more in them: change both together.
///
/// ```text
/// op 3 write_block 0 1 0 904
/// state 11 hole 2 4 says 0
/// ```
#[derive(Clone, Copy)]
pub struct Listing<'a> {
    /// The scene that is listed.
    scene: &'a Scene,
}

impl Scene {
    /// The list of the micro-operations and of the states, to be printed. It borrows the scene and
    /// allocates nothing.
    pub fn listing(&self) -> Listing<'_>
        ensures { result.scene.now ≡ self.now }
    {
        Listing { scene: self }
    }
}

impl fmt::Display for Listing<'_> {
    ghost output = { λ listing. Some (list_text listing.scene.now) };

    /// Prints the lines of the micro-operations, and then those of the states.
    fn fmt<W: fmt::Write>(&self, f: &mut fmt::Formatter<W>) -> fmt::Result {
        let ops = OpLines {
            ops: self.scene.micros().ops(),
        };
        let states = StateLines { scene: self.scene };
        write!(f, "{ops}{states}")
    }
}
