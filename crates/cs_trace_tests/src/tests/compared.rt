//! Every state of a trace, as it is shown, against the plain store of its set.
use super::lines::trace_of;
use cs_apm::laws::rules_are_sentences;
use cs_apm::{build, order_of};
use cs_micro::break_up;
use cs_names::Name;
use cs_state::Atlas;
use cs_tree_model::{Kind, TreeRead};
use std::alloc::{AllocError, Global};
use std::process::Abort;

/// The most micro-operations of a trace whose sets are all tried.
const MOST: usize = 12;

/// What one number has, as text.
fn push_record<T: TreeRead>(
    text: &mut String,
    alloc: Global,
    tree: &T,
    number: u64,
) -> Result<(), AllocError> {
    let Some(found) = tree.record(number) else {
        return text.push_str("nothing");
    };
    let (owner, group, mode, muid) = (found.owner, found.group, found.mode, found.muid);
    let own = format!(in alloc;
        "{} {} {owner} {group} {mode:o} {muid}",
        found.number, found.vers
    )?;
    text.push_str(own.as_str())?;
    if let Kind::File { length } = found.kind {
        let length = format!(in alloc; " {length}:")?;
        text.push_str(length.as_str())?;
    }
    if let Some(bytes) = tree.read_at(alloc, number, 0, 64)? {
        for byte in &bytes {
            let byte = format!(in alloc; "{byte:02x}")?;
            text.push_str(byte.as_str())?;
        }
    }
    Ok(())
}

/// The names and numbers that the directory lists, each also looked up by its name.
fn push_listing<T: TreeRead>(
    text: &mut String,
    alloc: Global,
    tree: &T,
    number: u64,
) -> Result<(), AllocError> {
    let mut last: Option<&Name> = None;
    for _ in 0..tree.count() {
        let Some(entry) = tree.entry_after(number, last, None) else {
            return Ok(());
        };
        let (name, at) = (entry.name.as_str(), entry.number);
        let found = tree.find_number(number, name).unwrap_or(999);
        let listed = format!(in alloc; " {name}={at}={found}")?;
        text.push_str(listed.as_str())?;
        last = Some(entry.name);
    }
    Ok(())
}

/// What is at all numbers, one line each, and at one more that nothing has.
fn shown<T: TreeRead>(alloc: Global, tree: &T) -> Result<String, AllocError> {
    let mut text = format!(in alloc; "{} {}\n", tree.count(), tree.last_number())?;
    for number in 0..tree.last_number().saturating_add(2) {
        push_record(&mut text, alloc, tree, number)?;
        let parent = tree.parent_of(number).unwrap_or(999);
        let name = tree.name_of(number).map_or("-", |name| name.as_str());
        let place = format!(in alloc; " in {parent} {name}")?;
        text.push_str(place.as_str())?;
        push_listing(&mut text, alloc, tree, number)?;
        text.push('\n')?;
    }
    Ok(text)
}

/// The places whose bits the number has, of those of the first micro-operations.
fn places_of(alloc: Global, bits: u32) -> Result<Vec<u32>, AllocError> {
    let mut places = Vec::new(alloc);
    for place in 0..MOST as u32 {
        if (bits >> place) % 2 == 1 {
            places.push(place)?;
        }
    }
    Ok(places)
}

/// Each state of the trace of these lines is its plain store. There are at least so many, of the
/// first micro-operations.
pub fn states_are_plain(rt: &impl Abort, alloc: Global, lines: &[&str], least: usize) {
    let trace = trace_of(rt, alloc, lines);
    let micros = break_up(alloc, &trace).expect(rt, "micro-operations");
    let atlas = Atlas::of(alloc, trace, micros).expect(rt, "memory");
    let order = order_of(alloc, atlas.micros()).expect(rt, "memory");
    rules_are_sentences(atlas.micros());
    let count = atlas.micros().ops().len().min(MOST);
    let mut states = 0usize;
    for bits in 0..1u32 << count {
        let places = places_of(alloc, bits).expect(rt, "memory");
        if order.is_allowed(&places) {
            let state = atlas.build(alloc, &places).expect(rt, "memory");
            let plain = build(alloc, atlas.micros(), atlas.trace(), &places).expect(rt, "memory");
            let state = shown(alloc, &state).expect(rt, "memory");
            let plain = shown(alloc, &plain).expect(rt, "memory");
            assert!(rt;
                state.as_str() == plain.as_str(),
                "{bits}\n{state}\n{plain}"
            );
            states = states.saturating_add(1);
        }
    }
    assert!(rt; least <= states);
}
