//! The list as JSON: a line for each micro-operation, and then one for each state. How one line is
//! spelled is in `json`; `listing` chooses between this form and the plain one.
ghost use Rattle.std.specs.Prelude.{◌≡◌, ◌<◌, ◌++◌, ℕ, IfOk, IfSome, List, OnOk, Option, length};
ghost use Rattle.std.specs.Prelude.{string_bytes};
ghost use Rattle.std.specs.Option.{option_copied};
ghost use Rattle.cs_sets.specs.Orders.{needs_in};
ghost use Rattle.cs_apm.specs.Rules.{op_at};
ghost use Rattle.cs_apm.specs.States.{entries_after};
ghost use Rattle.cs_picks.specs.Families.{least_with};
ghost use Rattle.cs_plan.specs.Scenes.{micros_of, order_in};
ghost use Rattle.cs_list.specs.Json as spec;
ghost use Rattle.cs_list.specs.Listings.{AreObjects, AreProfilesOf, AreStateObjects, op_object};
ghost use Rattle.cs_list.specs.Listings.{state_object};
ghost use Rattle.cs_list.specs.Paths.{LeadsToChanged};
ghost use Rattle.cs_list.specs.Profiles.{AreOrders};
ghost use Rattle.cs_list.specs.declared.profiles.Profiles.{Profiles};

use crate::json::{op_line, state_line};
use crate::lines::number_at;
use crate::profiles::{Orders, Profiles, profiles_of};
use crate::tree_paths::TreePaths;
use cs_names::Path;
use cs_picks::least_with;
use cs_plan::members::places_of;
use cs_plan::{Places, Scene};
use std::alloc::{AllocError, Global};

/// The line of the micro-operation at the place, as `op_line` of `json` writes it, with what it
/// needs. `path` is one path of the file that it changes, if it changes one; `line` is the number
/// of the trace's line that it came from. The error is out of memory. The place must be that of a
/// micro-operation of the scene.
fn op_line_at(
    alloc: Global,
    scene: &Scene,
    place: usize,
    path: Option<&Path>,
    line: usize,
) -> Result<String, AllocError>
    requires { place < length (micros_of scene.now).ops }
    ensures { IfOk result (λ text. string_bytes text
        ≡ spec.op_line scene.now.trace.version place (op_at (micros_of scene.now).ops place)
        (option_copied path.entry) line
        (least_with (needs_in (order_in scene.now)) place)) }
{
    let needs = Places::of(least_with(alloc, scene.order(), place)?);
    op_line(
        alloc,
        scene.trace().version(),
        place,
        &scene.micros().ops()[place],
        path,
        line,
        &needs,
    )
}

/// Adds the object of the micro-operation at the place to the text, and changes the paths as the
/// micro-operation does. The error is out of memory; the text may have the object then, and neither
/// text nor paths must be used. The place must be that of a micro-operation of the scene.
fn push_op_object<'a>(
    alloc: Global,
    scene: &'a Scene,
    lines: &[usize],
    place: usize,
    paths: &mut TreePaths<'a>,
    text: &mut Vec<u8>,
) -> Result<(), AllocError>
    requires { place < length (micros_of scene.now).ops }
    ensures object { OnOk result ((path : Option (List (List ℕ)))
        × IfSome path (LeadsToChanged paths.old (op_at (micros_of scene.now).ops place))
        × (text.new.items ≡ text.old.items ++ op_object scene.now lines.now (place, path))) }
    ensures after { OnOk result
        (paths.new ≡ entries_after paths.old (op_at (micros_of scene.now).ops place)) }
{
    let op = &scene.micros().ops()[place];
    let path = paths.path_of_changed_file(op);
    let object = op_line_at(alloc, scene, place, path, number_at(lines, place))?;
    text.extend_from_slice(object.as_bytes())?;
    paths.apply(alloc, op)
}

/// The objects of all micro-operations, in their order, each with a line feed. `lines` has for each
/// the number of the trace's line that it came from. The error is out of memory.
pub fn op_objects(alloc: Global, scene: &Scene, lines: &[usize]) -> Result<Vec<u8>, AllocError>
    ensures { IfOk result (λ text.
        AreObjects scene.now lines.now (length (micros_of scene.now).ops) text.items) }
{
    let ops = scene.micros().ops();
    let mut paths = TreePaths::of(alloc, scene)?;
    let mut text = Vec::new(alloc);
    for place in 0..ops.len() {
        push_op_object(alloc, scene, lines, place, &mut paths, &mut text)?;
    }
    Ok(text)
}

/// The profiles of the state of a number. `orders` has the orders of the scene's trace. The error
/// is out of memory. The plan must have the number.
fn profiles_at(
    alloc: Global,
    scene: &Scene,
    orders: &Orders,
    number: usize,
) -> Result<Profiles, AllocError>
    requires orders { AreOrders (micros_of scene.now) orders.now }
    requires there { number < length scene.now.plan }
    ensures { IfOk result (λ profiles. AreProfilesOf scene.now number profiles) }
{
    let recipe = &scene.plan().recipes()[number];
    let places = places_of(alloc, scene.order(), recipe)?;
    Ok(profiles_of(scene.micros(), orders, &places))
}

/// The object of the state of a number. `firsts` has for each state the number of the first one
/// with an equal tree. The error is out of memory. The plan must have the number, and `firsts` an
/// item for it; without one the line would say 0.
fn state_object(
    alloc: Global,
    scene: &Scene,
    firsts: &[u32],
    number: usize,
    profiles: Profiles,
) -> Result<String, AllocError>
    requires { number < length scene.now.plan }
    ensures { IfOk result (λ text. string_bytes text
        ≡ state_object scene.now firsts.now (number, profiles)) }
{
    let recipe = &scene.plan().recipes()[number];
    // the plan has the number
    let says = scene.says(number as u32).unwrap_or(0);
    let first = firsts.get(number).copied().unwrap_or(0);
    state_line(alloc, number, recipe, says, first, profiles)
}

/// Appends the object of the state of a number to the text. The error is out of memory; the text
/// may have the object then. The plan must have the number, and `orders` be those of the scene's
/// trace.
fn push_state_object(
    alloc: Global,
    scene: &Scene,
    orders: &Orders,
    firsts: &[u32],
    number: usize,
    text: &mut Vec<u8>,
) -> Result<(), AllocError>
    requires orders { AreOrders (micros_of scene.now) orders.now }
    requires there { number < length scene.now.plan }
    ensures { OnOk result ((profiles : Profiles) × AreProfilesOf scene.now number profiles
        × (text.new.items
        ≡ text.old.items ++ state_object scene.now firsts.now (number, profiles))) }
{
    let profiles = profiles_at(alloc, scene, orders, number)?;
    let object = state_object(alloc, scene, firsts, number, profiles)?;
    text.extend_from_slice(object.as_bytes())
}

/// The objects of all states, in the order of their numbers, each with a line feed. `firsts` is as
/// in `state_object`. The error is out of memory.
pub fn state_objects(alloc: Global, scene: &Scene, firsts: &[u32]) -> Result<Vec<u8>, AllocError>
    ensures { IfOk result (λ text.
        AreStateObjects scene.now firsts.now (length scene.now.plan) text.items) }
{
    let orders = Orders::of(alloc, scene.micros())?;
    let mut text = Vec::new(alloc);
    for number in 0..scene.plan().len() {
        push_state_object(alloc, scene, &orders, firsts, number, &mut text)?;
    }
    Ok(text)
}
