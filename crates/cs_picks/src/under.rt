//! All sets of a scene that a file system of another profile may leave too, as lines of a picks
//! file.
ghost use Rattle.std.specs.Prelude.{◌≡◌, ◌<◌, ◌↔◌, ◌∷◌, [], length, IfErr, IsTrue, MatchOption};
ghost use Rattle.std.specs.Prelude.{OnOk};
ghost use Rattle.std.specs.Io.KnownBytes.{Appends};
ghost use Rattle.std.specs.List.{filter};
ghost use Rattle.cs_different.specs.Members.{has_seconds, sets_told};
ghost use Rattle.cs_sets.specs.Places.{places_of};
ghost use Rattle.cs_every.specs.Faults.{IsOutside};
ghost use Rattle.cs_every.specs.Texts.{picks_text};
ghost use Rattle.cs_picks.specs.Under.{IsTooMany, WritesMembers};

use cs_different::members::{has_seconds, members_under};
use cs_every::{EveryFault, write_set};
use cs_plan::Scene;
use cs_sets::{Order, Row, Sets};
use cs_trace::Profile;
use std::alloc::Global;
use std::io::Write;

/// The next whole set, removed from `sets` with those before it; None if none is left. A set is
/// whole if it has the second half of each rename of which it has the first half; `firsts` has the
/// places of the first halves.
fn next_whole<'a>(firsts: &[u32], sets: &mut Sets<'a>) -> Option<Row>
    ensures { MatchOption result (filter (has_seconds firsts.now) sets.old ≡ [])
        (λ set. filter (has_seconds firsts.now) sets.old
        ≡ places_of set ∷ filter (has_seconds firsts.now) sets.new) }
{
    while let Some(set) = sets.next() {
        if has_seconds(firsts, &set) {
            return Some(set);
        }
    }
    None
}

/// Whether the order allows more than `most` whole sets (`next_whole`). It stops at the first above
/// `most`, and allocates nothing. (`has_more_than` of cs_every is the same for all sets.)
fn has_more_than(order: &Order, firsts: &[u32], most: u32) -> bool
    ensures { IsTrue result ↔ (most < length (sets_told order.now firsts.now)) }
{
    let mut sets = Sets::of(order);
    for _ in 0..most {
        let Some(passed) = next_whole(firsts, &mut sets) else {
            return false;
        };
    }
    next_whole(firsts, &mut sets).is_some()
}

/// Writes the whole sets (`next_whole`) that the order allows, in their order, each as a line.
/// Allocates nothing. After a fault, which is Output, some of the lines may be written.
fn write_members<W: Write>(order: &Order, firsts: &[u32], out: &mut W) -> Result<(), EveryFault>
    ensures fault { IfErr result IsOutside }
    ensures text { OnOk result (Appends (W.contents out.old) (W.contents out.new)
        (picks_text (sets_told order.now firsts.now))) }
{
    let mut sets = Sets::of(order);
    while let Some(set) = next_whole(firsts, &mut sets) {
        write_set(&set, out)?;
    }
    Ok(())
}

/// Writes all sets of the scene that a file system of the profile may leave too, ascending. If
/// there are more than `most`, the fault is More, and nothing is written; after another fault a
/// part may be.
pub fn write_every_under<W: Write>(
    alloc: Global,
    scene: &Scene,
    profile: Profile,
    most: u32,
    out: &mut W,
) -> Result<(), EveryFault>
    ensures written { OnOk result
        (WritesMembers scene.now profile most (W.contents out.old) (W.contents out.new)) }
    ensures fault { IfErr result (IsTooMany scene.now profile most) }
{
    let members = members_under(alloc, scene, profile)?;
    let firsts = members.firsts.as_slice();
    if has_more_than(&members.order, firsts, most) {
        return Err(EveryFault::More(most));
    }
    write_members(&members.order, firsts, out)?;
    Ok(())
}
