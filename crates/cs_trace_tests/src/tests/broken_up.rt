//! What traces break into, and which sets of it may be left.
use super::lines::trace_of;
use cs_apm::{may_be_left, order_by};
use cs_micro::break_up;
use cs_trace::Profile;
use std::alloc::Global;
use std::process::Abort;

/// A header of the fourth version, of a trace for journaling file systems.
pub const JOURNAL: &str =
    r#"{"trace":4,"profile":"journal","block":4096,"owner":"cat","group":"staff","mode":"775"}"#;

/// The places of some micro-operations, a profile, and whether a file system of it may leave just
/// these.
pub type Pick<'a> = (&'a [u32], Profile, bool);

/// The trace of these lines breaks into these micro-operations.
pub fn has_steps(rt: &impl Abort, alloc: Global, lines: &[&str], wanted: &[&str]) {
    let trace = trace_of(rt, alloc, lines);
    let micros = break_up(alloc, &trace).expect(rt, "micro-operations");
    assert_eq!(rt; micros.ops().len(), wanted.len());
    for (op, text) in micros.ops().iter().zip(wanted) {
        let found = format!(in alloc; "{op}").expect(rt, "memory");
        assert_eq!(rt; found.as_str(), *text);
    }
}

/// Of the trace of these lines, file systems may leave these sets or not.
pub fn has_picks(rt: &impl Abort, alloc: Global, lines: &[&str], wanted: &[Pick<'_>]) {
    let trace = trace_of(rt, alloc, lines);
    let micros = break_up(alloc, &trace).expect(rt, "micro-operations");
    for (places, profile, left) in wanted {
        let order = order_by(alloc, &micros, *profile).expect(rt, "memory");
        assert_eq!(rt; may_be_left(&micros, *profile, &order, places), *left);
    }
}
