//! Traces of the fourth version, by their lines.
use cs_trace::{Trace, read_trace};
use std::alloc::{AllocError, Global};
use std::process::Abort;

/// A header of the fourth version.
pub const HEADER: &str =
    r#"{"trace":4,"profile":"blocks","block":4096,"owner":"cat","group":"staff","mode":"775"}"#;

/// The lines, one after another.
pub fn text_of(alloc: Global, lines: &[&str]) -> Result<String, AllocError> {
    let mut text = String::new(alloc);
    for line in lines {
        text.push_str(line)?;
        text.push('\n')?;
    }
    Ok(text)
}

/// The trace that the lines spell.
pub fn trace_of(rt: &impl Abort, alloc: Global, lines: &[&str]) -> Trace {
    let text = text_of(alloc, lines).expect(rt, "memory");
    read_trace(alloc, text.as_str()).expect(rt, "a trace")
}
