//! The plain list with options: a line for each micro-operation, and then one for each state. How
//! one line is spelled is in `printed`.
ghost use Rattle.std.specs.Prelude.{IfErr};
ghost use Rattle.cs_inputs.specs.Written.{IsOfNoStream};

use crate::lines::number_at;
use crate::printed::{OpLine, Origin, StateLine};
use crate::tree_paths::TreePaths;
use cs_inputs::ProgramFault;
use cs_plan::Scene;
use std::alloc::Global;
use std::io::Write;

/// The number of the trace's line that the micro-operation at the place came from, of `lines`. None
/// if it isn't asked for.
fn line_at(lines: &[usize], place: usize, is_asked: bool) -> Option<usize> {
    if is_asked {
        Some(number_at(lines, place))
    } else {
        None
    }
}

/// Adds a line for each micro-operation to the text. If `has_lines`, each has the number of the
/// trace's line that it came from, of `lines`, and the path of a file that it changes. The error is
/// out of memory; the text has the lines that were made before, and perhaps a part of the next.
pub fn push_op_lines(
    alloc: Global,
    scene: &Scene,
    lines: &[usize],
    has_lines: bool,
    text: &mut Vec<u8>,
) -> Result<(), ProgramFault>
    ensures { IfErr result IsOfNoStream }
{
    let Ok(mut paths) = TreePaths::of(alloc, scene) else {
        return Err(ProgramFault::Memory);
    };
    for (place, op) in scene.micros().ops().iter().enumerate() {
        let line = line_at(lines, place, has_lines);
        let path = paths.path_of_changed_file(op);
        let origin = Origin { line, path };
        write!(text, "{}", OpLine { place, op, origin }).map_err(|_| ProgramFault::Memory)?;
        if paths.apply(alloc, op).is_err() {
            return Err(ProgramFault::Memory);
        }
    }
    Ok(())
}

/// The number of the first state whose tree is equal to that of the state `number`, of `firsts`.
/// None if it isn't asked for.
fn first_at(firsts: &[u32], number: usize, is_asked: bool) -> Option<u32> {
    if is_asked {
        firsts.get(number).copied()
    } else {
        None
    }
}

/// Adds a line for each state to the text. If `has_firsts`, each has the number of the first state
/// with an equal tree, of `firsts`. The error is out of memory; the text has the lines that were
/// made before, and perhaps a part of the next.
pub fn push_state_lines(
    scene: &Scene,
    firsts: &[u32],
    has_firsts: bool,
    text: &mut Vec<u8>,
) -> Result<(), ProgramFault>
    ensures { IfErr result IsOfNoStream }
{
    for (number, recipe) in scene.plan().recipes().iter().enumerate() {
        let line = StateLine {
            number,
            recipe,
            // the default isn't used, as the plan has the number
            says: scene.says(number as u32).unwrap_or(0),
            first: first_at(firsts, number, has_firsts),
        };
        write!(text, "{line}").map_err(|_| ProgramFault::Memory)?;
    }
    Ok(())
}
