//! Those of all sets that differ in what they leave, as lines of a picks file.
ghost use Rattle.std.specs.Prelude.{◌≡◌, IfErr, OnOk};
ghost use Rattle.cs_picks.specs.Sets.{IsUncompared, WritesDifferent, fault_of_different};
ghost use Rattle.cs_picks.specs.Under.{IsUncomparedUnder, WritesDifferentUnder};

use cs_different::{DifferentFault, different_sets, different_under};
use cs_every::{EveryFault, write_rows};
use cs_plan::Scene;
use cs_trace::Profile;
use std::alloc::Global;
use std::io::Write;

/// The fault of cs_different as one of cs_every, which has its text; TooMany is called
/// TooManyClasses there.
fn fault_of(fault: DifferentFault) -> EveryFault
    ensures { result ≡ fault_of_different fault }
{
    match fault {
        DifferentFault::More(most) => EveryFault::More(most),
        DifferentFault::TooMany => EveryFault::TooManyClasses,
        DifferentFault::Memory => EveryFault::Memory,
    }
}

/// Writes those sets of the scene that differ, ascending: of the sets that leave equal trees and as
/// many acknowledged lines, the first. If more than `most` differ, or if they fall into too many
/// classes, nothing is written; after another fault a part may be.
pub fn write_different<W: Write>(
    alloc: Global,
    scene: &Scene,
    most: u32,
    out: &mut W,
) -> Result<(), EveryFault>
    ensures written { OnOk result
        (WritesDifferent scene.now most (W.contents out.old) (W.contents out.new)) }
    ensures fault { IfErr result (IsUncompared scene.now most) }
{
    let sets = match different_sets(alloc, scene, most) {
        Ok(sets) => sets,
        Err(fault) => return Err(fault_of(fault)),
    };
    write_rows(sets.as_slice(), out)?;
    Ok(())
}

/// Writes those sets of the scene that a file system of the profile may leave too, and of these the
/// ones that differ, as `write_different` does, with the same refusals.
pub fn write_different_under<W: Write>(
    alloc: Global,
    scene: &Scene,
    profile: Profile,
    most: u32,
    out: &mut W,
) -> Result<(), EveryFault>
    ensures written { OnOk result
        (WritesDifferentUnder scene.now profile most (W.contents out.old) (W.contents out.new)) }
    ensures fault { IfErr result (IsUncomparedUnder scene.now profile most) }
{
    let sets = match different_under(alloc, scene, profile, most) {
        Ok(sets) => sets,
        Err(fault) => return Err(fault_of(fault)),
    };
    write_rows(sets.as_slice(), out)?;
    Ok(())
}
