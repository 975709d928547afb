//! What is printed of the sets that a crash may leave.
ghost use Rattle.std.specs.Prelude.{IfErr, OnOk};
ghost use Rattle.cs_picks.specs.Sets.{IsRefused, WritesSets};
ghost use Rattle.cs_picks.specs.declared.sets.PickSets.TheVariants as forms;

use crate::different::{write_different, write_different_under};
use crate::family::{Family, write_family};
use crate::under::write_every_under;
use cs_every::{EveryFault, has_more_than, write_count, write_every, write_sample};
use cs_plan::Scene;
use cs_trace::Profile;
use std::alloc::Global;
use std::io::Write;

/// What is printed of the sets that a crash may leave.
#[derive(Clone, Copy, Debug, PartialEq, Eq)]
pub enum PickSets {
    /// The sets of families.
    Of(Family),
    /// All sets, if there are no more than this many.
    Every(u32),
    /// Those of all sets that a file system of the profile may leave too, if there are no more than
    /// this many.
    EveryUnder(Profile, u32),
    /// Of all sets that leave equal trees and as many acknowledged lines, the first; if there are
    /// no more than this many such first sets.
    Different(u32),
    /// The same for the sets that a file system of the profile may leave too.
    DifferentUnder(Profile, u32),
    /// How many sets there are.
    Count,
    /// Sets drawn at random: the first number is the seed, the second how many.
    Sample(u64, u32),
}

/// Writes all sets of the scene. If there are more than `most`, the fault is More, and nothing is
/// written. After another fault a part may be.
fn write_all_sets<W: Write>(scene: &Scene, most: u32, out: &mut W) -> Result<(), EveryFault>
    ensures written { OnOk result
        (WritesSets scene.now (forms.Every most) (W.contents out.old) (W.contents out.new)) }
    ensures fault { IfErr result (IsRefused scene.now (forms.Every most)) }
{
    let order = scene.order();
    if has_more_than(order, most) {
        return Err(EveryFault::More(most));
    }
    write_every(order, out)
}

/// Writes how many sets the scene has, as a line, as `write_count` of cs_every does. The fault is
/// TooMany if they can't be counted; nothing is written then.
fn write_number_of_sets<W: Write>(
    alloc: Global,
    scene: &Scene,
    out: &mut W,
) -> Result<(), EveryFault>
    ensures written { OnOk result
        (WritesSets scene.now forms.Count (W.contents out.old) (W.contents out.new)) }
    ensures fault { IfErr result (IsRefused scene.now forms.Count) }
{
    let order = scene.order();
    write_count(alloc, order, out)
}

/// Writes `count` sets of the scene, drawn one after the other by the seed: the same seed gives the
/// same sets, and a set may be drawn twice. The fault is TooMany if the scene's sets can't be
/// counted; nothing is written then. After another fault a part may be.
fn write_drawn_sets<W: Write>(
    alloc: Global,
    scene: &Scene,
    seed: u64,
    count: u32,
    out: &mut W,
) -> Result<(), EveryFault>
    ensures written { OnOk result
        (WritesSets scene.now (forms.Sample seed count) (W.contents out.old) (W.contents out.new)) }
    ensures fault { IfErr result (IsRefused scene.now (forms.Sample seed count)) }
{
    let order = scene.order();
    write_sample(alloc, order, seed, count, out)
}

/// Writes what is asked for of the scene's sets. If there are more sets than may be printed, or too
/// many to count, nothing is written; after another fault a part may be.
pub fn write_sets<W: Write>(
    alloc: Global,
    scene: &Scene,
    sets: PickSets,
    out: &mut W,
) -> Result<(), EveryFault>
    ensures written { OnOk result
        (WritesSets scene.now sets (W.contents out.old) (W.contents out.new)) }
    ensures fault { IfErr result (IsRefused scene.now sets) }
{
    match sets {
        PickSets::Of(family) => write_family(alloc, scene, family, out),
        PickSets::Every(most) => write_all_sets(scene, most, out),
        PickSets::EveryUnder(profile, most) => {
            write_every_under(alloc, scene, profile, most, out)
        }
        PickSets::Different(most) => write_different(alloc, scene, most, out),
        PickSets::DifferentUnder(profile, most) => {
            write_different_under(alloc, scene, profile, most, out)
        }
        PickSets::Count => write_number_of_sets(alloc, scene, out),
        PickSets::Sample(seed, count) => write_drawn_sets(alloc, scene, seed, count, out),
    }
}
