//! A family of sets of a trace's micro-operations, written as a picks file. Each family has its own
//! file: `lost` and `files`.
ghost use Rattle.std.specs.Prelude.{IfErr, OnOk};
ghost use Rattle.std.specs.List.{All};
ghost use Rattle.std.specs.Io.KnownBytes.{Appends};
ghost use Rattle.cs_plan.specs.Plans.{IsAllowedIn};
ghost use Rattle.cs_plan.specs.Scenes.{order_in};
ghost use Rattle.cs_picks.specs.Families.{family_in};
ghost use Rattle.cs_every.specs.Faults.{IsOutside};
ghost use Rattle.cs_every.specs.Texts.{picks_text};

use crate::files::write_files;
use crate::lost::write_lost;
use cs_every::EveryFault;
use cs_names::laws::know;
use cs_plan::Scene;
use std::alloc::Global;
use std::io::Write;

/// Which sets are printed. A crash may leave each of them.
#[derive(Clone, Copy, Debug, PartialEq, Eq)]
pub enum Family {
    /// For each micro-operation the least set that has it: itself and all that it needs, directly
    /// or through others.
    Lost,
    /// For each prefix, and each file with a change there that no sync point before the prefix's
    /// last operation covers: the prefix without these changes, and without all that need one of
    /// them, directly or through others. If the prefix that is one place shorter gives the same set
    /// for the file, it isn't repeated.
    Files,
    /// Those of Lost, and then those of Files: a set of both families is there twice.
    Both,
}

/// Writes the sets of a family as a picks file has them. Those of Lost are in the order of their
/// places; those of Files in the order of the prefixes, and for each prefix of the files' numbers.
/// The fault is Memory or Output; some of the lines may be written then.
pub fn write_family<W: Write>(
    alloc: Global,
    scene: &Scene,
    family: Family,
    out: &mut W,
) -> Result<(), EveryFault>
    ensures sets { OnOk result
        (Appends (W.contents out.old) (W.contents out.new)
        (picks_text (family_in scene.now family))) }
    ensures fault { IfErr result IsOutside }
    ensures allowed { All (IsAllowedIn (order_in scene.now)) (family_in scene.now family) }
{
    let order = scene.order();
    // that each operation needs only earlier ones
    know(order.len());
    match family {
        Family::Lost => write_lost(alloc, order, out),
        Family::Files => write_files(alloc, scene.micros(), order, out),
        Family::Both => {
            write_lost(alloc, order, out)?;
            write_files(alloc, scene.micros(), order, out)
        }
    }
}
