//! What the entries of a state hold, as slots: one for each entry that the start has or a
//! micro-operation touches, in the order of entries. The place of an entry is the number of its
//! slot, from 0. A slot is None if its entry holds nothing.
ghost use Rattle.std.specs.Prelude.{◌≡◌, ◌<◌, length, map, fold};
ghost use Rattle.std.specs.List.{All};
ghost use Rattle.cs_apm.specs.Slots.{FitsIn, slots_after, step_at};

use cs_entries::Node;

/// What a micro-operation does to the slots. (Steps of cs_world, cs_session and cs_linux are other
/// things.)
#[derive(Clone, Copy, Debug)]
pub enum Step {
    /// The entry of this place holds this node from now on; None: it holds nothing.
    Set(u32, Option<Node>),
    /// What the entry of the first place holds moves to the entry of the second, and replaces what
    /// is there. If the first holds nothing, nothing changes.
    Move(u32, u32),
    /// The micro-operation touches no entry, so no slot changes.
    Other,
}

/// Makes one step in the slots. A move out of an empty slot changes nothing. (`make_step` of
/// cs_same_states does the same, and skips what is out of range.)
fn make_step(slots: &mut [Option<Node>], step: Step)
    requires { FitsIn (length slots.old) step }
    ensures { slots.new ≡ slots_after slots.old step }
{
    match step {
        Step::Set(place, slot) => slots[place as usize] = slot,
        Step::Move(from, to) => {
            if let Some(node) = slots[from as usize] {
                slots[from as usize] = None;
                slots[to as usize] = Some(node);
            }
        }
        Step::Other => {}
    }
}

/// Makes the steps of the members of a set in the slots, in the order of the places. `steps` has
/// the step of each micro-operation, and the members are at these places.
pub fn make_steps(slots: &mut [Option<Node>], steps: &[Step], places: &[u32])
    requires fit { All (FitsIn (length slots.old)) steps.now }
    requires inside { All (λ place. place < length steps.now) places.now }
    ensures { slots.new ≡ fold slots_after slots.old (map (step_at steps.now) places.now) }
{
    for place in places {
        make_step(slots, steps[*place as usize]);
    }
}
