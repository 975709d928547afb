//! The command `picks`, after its files were read. The sets are found and written in `sets`.
ghost use Rattle.std.specs.Prelude.{◌≡◌, ◌↔◌, ◌≤◌, IsTrue, OnOk};
ghost use Rattle.cs_picks.specs.Sets.{IsAsked, PrintsSets};
ghost use Rattle.cs_picks.specs.Under.{IsKnown};

use crate::fault::CommandFault;
use crate::sets::{PickSets, write_sets};
use cs_every::EveryFault;
use cs_inputs::{Inputs, exit_status, scene_of};
use cs_plan::Scene;
use cs_trace::Profile;
use std::alloc::Global;
use std::io::Write;

/// Whether the trace's version has the profile: `journal` is of the fourth version.
fn is_known(scene: &Scene, profile: Profile) -> bool
    ensures { IsTrue result ↔ IsKnown scene.now profile }
{
    profile != Profile::Journal || scene.micros().version().is_fourth()
}

/// Whether the trace's version has the profile that is asked for; true if none is. (Not whether one
/// is asked for.)
fn is_asked(scene: &Scene, sets: PickSets) -> bool
    ensures { IsTrue result ↔ IsAsked scene.now sets }
{
    match sets {
        PickSets::EveryUnder(profile, _) | PickSets::DifferentUnder(profile, _) => {
            is_known(scene, profile)
        }
        _ => true,
    }
}

/// Writes what is asked for of the sets of the inputs' scene. Nothing is written if the inputs are
/// at fault, if the trace's version has no such profile, or if there are more sets than may be
/// printed or too many to count. After another fault a part may be.
fn print_sets<W: Write>(
    alloc: Global,
    inputs: &Inputs,
    sets: PickSets,
    out: &mut W,
) -> Result<(), CommandFault>
    ensures { OnOk result (PrintsSets inputs.now sets (W.contents out.old) (W.contents out.new)) }
{
    let scene = scene_of(alloc, inputs)?;
    if !is_asked(&scene, sets) {
        return Err(CommandFault::NoProfile);
    }
    write_sets(alloc, &scene, sets, out)?;
    Ok(())
}

/// The command `picks`: prints what is asked for of the sets of the inputs' scene on `out`, each
/// set on a line as a picks file has it, and flushes it. Of a count it prints only the number.
/// Returns the status: 0, or 1 after a fault, which one line on `err` reports; some of the lines
/// may be written by then.
pub fn picks_of<W: Write, E: Write>(
    alloc: Global,
    inputs: &Inputs,
    sets: PickSets,
    out: &mut W,
    err: &mut E,
) -> u8
    ensures status { result ≤ 1 }
    ensures sets { result ≡ 0
        → PrintsSets inputs.now sets (W.contents out.old) (W.contents out.new) }
{
    let done = print_sets(alloc, inputs, sets, out);
    let unflushed = CommandFault::Sets(EveryFault::Output);
    exit_status(done, unflushed, out, err)
}
