//! The families of sets that options of `list` add to its plan, each set that the plan lacks once.
ghost use Rattle.std.specs.Prelude.{◌≡◌, ◌<◌, ◌≤◌, true, IfErr, IfOk, length};
ghost use Rattle.std.specs.List.{All};
ghost use Rattle.cs_inputs.specs.Written.{IsOfNoStream};
ghost use Rattle.cs_plan.specs.Plans.{IsWithin};
ghost use Rattle.cs_list.specs.Listings.{IsListed, asks_family};

use cs_apm::Order;
use cs_inputs::{Inputs, ProgramFault, read_picks, scene_of, scene_with};
use cs_options::ListOptions;
use cs_picks::{Family, write_family};
use cs_plan::members::is_kept;
use cs_plan::{Places, Recipe, Scene};
use std::alloc::Global;

/// Appends the sets of a family to the text of a picks file. The error is out of memory; the text
/// may have some of them then.
fn push_family(
    alloc: Global,
    scene: &Scene,
    family: Family,
    text: &mut Vec<u8>,
) -> Result<(), ProgramFault>
    ensures { IfErr result IsOfNoStream }
{
    match write_family(alloc, scene, family, text) {
        Ok(()) => Ok(()),
        // the text grows in memory only
        Err(_) => Err(ProgramFault::Memory),
    }
}

/// The sets of the families that the options ask for, as a picks file: those of `--lost` come
/// first. Empty if they ask for none. The error is out of memory.
fn text_of_families(
    alloc: Global,
    scene: &Scene,
    options: ListOptions,
) -> Result<Vec<u8>, ProgramFault>
    ensures { IfErr result IsOfNoStream }
{
    let mut text = Vec::new(alloc);
    if options.lost {
        push_family(alloc, scene, Family::Lost, &mut text)?;
    }
    if options.files {
        push_family(alloc, scene, Family::Files, &mut text)?;
    }
    Ok(text)
}

/// The sets of the families that the options ask for, those of `--lost` first; a set may be there
/// twice. Empty if they ask for none. The error is out of memory. The sets are written as a text,
/// which is read again; that text has no fault.
fn sets_of_families(
    alloc: Global,
    scene: &Scene,
    options: ListOptions,
) -> Result<Vec<Places>, ProgramFault>
    ensures { IfErr result IsOfNoStream }
{
    let text = text_of_families(alloc, scene, options)?;
    match read_picks(alloc, &text) {
        Ok(sets) => Ok(sets),
        // each line of a family is an array of places
        Err(_) => Err(ProgramFault::Memory),
    }
}

/// Whether the places are those from 0 up to `end`, without `end`.
fn is_prefix(places: &[u32], end: u32) -> bool {
    if places.len() != end as usize {
        return false;
    }
    (0..end).all(|place| places.get(place as usize).copied() == Some(place))
}

/// Whether the places are those of a hole: all before `end` that stay in a state without `missing`,
/// in ascending order. The recipe is of the order: `missing` is before `end`, which is at most its
/// length.
fn is_hole(order: &Order, places: &[u32], missing: u32, end: u32) -> bool
    requires first { missing < end }
    requires second { end ≤ length order.now }
{
    // the last place of a hole stays
    if places.last().copied() != Some(end - 1) {
        return false;
    }
    let mut next = 0;
    for place in 0..end {
        if is_kept(order, missing as usize, place as usize) {
            if places.get(next).copied() != Some(place) {
                return false;
            }
            next += 1;
        }
    }
    next == places.len()
}

/// Whether a state of this recipe has exactly these places. The recipe must be one of a plan of the
/// order.
fn is_set_of(order: &Order, recipe: &Recipe, places: &[u32]) -> bool
    requires { IsWithin (length order.now) recipe.now }
{
    match recipe {
        Recipe::Prefix(end) => is_prefix(places, *end),
        Recipe::Hole(missing, end) => is_hole(order, places, *missing, *end),
        Recipe::Pick(own) => own.as_slice() == places,
    }
}

/// Whether a state of one of these recipes has exactly these places. The recipes must be those of a
/// plan of the order.
fn has_set(order: &Order, recipes: &[Recipe], places: &[u32]) -> bool
    requires { All (IsWithin (length order.now)) recipes.now }
{
    for recipe in recipes {
        if is_set_of(order, recipe, places) {
            return true;
        }
    }
    false
}

/// Those of the sets that the scene's plan doesn't have, each once, in their order. Each set is
/// compared with every state of the plan. The error is out of memory.
fn missing_sets(
    alloc: Global,
    scene: &Scene,
    sets: Vec<Places>,
) -> Result<Vec<Places>, ProgramFault>
    ensures { IfErr result IsOfNoStream }
{
    let recipes = scene.plan().recipes();
    let mut missing: Vec<Places> = Vec::new(alloc);
    for set in sets {
        let is_known = has_set(scene.order(), recipes, set.as_slice())
            || missing
                .iter()
                .any(|other| other.as_slice() == set.as_slice());
        if !is_known && missing.push(set).is_err() {
            return Err(ProgramFault::Memory);
        }
    }
    Ok(missing)
}

/// Whether the options ask for a family.
fn asks_family(options: ListOptions) -> bool
    ensures { result ≡ asks_family options }
{
    options.lost || options.files
}

/// The scene of the inputs, whose plan has at its end the sets of the families that the options ask
/// for, each that it lacks once. `scene` is the one without them. An error is as in
/// `scene_with_families`. The caller has asked `asks_family`.
fn scene_with_sets(
    alloc: Global,
    inputs: &Inputs,
    scene: &Scene,
    options: ListOptions,
) -> Result<Scene, ProgramFault>
    requires { asks_family options ≡ true }
    ensures listed { IfOk result (IsListed inputs.now options) }
    ensures fault { IfErr result IsOfNoStream }
{
    let sets = sets_of_families(alloc, scene, options)?;
    let missing = missing_sets(alloc, scene, sets)?;
    scene_with(alloc, inputs, missing)
}

/// The scene that is listed: that of the inputs, or of `scene_with_sets` if the options ask for a
/// family. An error is as that of `scene_of`; PlanTooLarge may be due to the families.
pub fn scene_with_families(
    alloc: Global,
    inputs: &Inputs,
    options: ListOptions,
) -> Result<Scene, ProgramFault>
    ensures listed { IfOk result (IsListed inputs.now options) }
    ensures fault { IfErr result IsOfNoStream }
{
    let scene = scene_of(alloc, inputs)?;
    if asks_family(options) {
        return scene_with_sets(alloc, inputs, &scene, options);
    }
    Ok(scene)
}
