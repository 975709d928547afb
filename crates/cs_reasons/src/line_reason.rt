//! Why a line of a trace is refused, in words: what the fault of the trace doesn't say. It reads
//! the line again: cs_trace_lines, which refused it, returns only the kind of fault.

use serde_json::{Map, Value};
use std::alloc::{AllocError, Global};

/// The keys that lines of any version have, as cs_trace_lines reads them: change both.
const KEYS: [&str; 18] = [
    "trace", "profile", "block", "start", "op", "path", "from", "to", "owner", "group", "mode",
    "bytes", "offset", "length", "parts", "target", "text", "note",
];

/// The versions of traces that cs_trace_lines reads: change both.
const VERSIONS: [u64; 4] = [1, 2, 3, 4];

/// Whether the text is three octal digits, as cs_trace_lines takes them.
fn is_mode(text: &str) -> bool {
    text.len() == 3 && text.bytes().all(|digit| (b'0'..=b'7').contains(&digit))
}

/// Whether the value is a version of traces that is known.
fn is_version(value: &Value) -> bool {
    match value.as_u64() {
        Some(version) => VERSIONS.contains(&version),
        None => false,
    }
}

/// Why a member of a line is refused by itself: a version or a key that isn't known, a mode that
/// isn't three octal digits, or an odd number of digits of `bytes`. None if it is none of these.
/// The error is out of memory.
fn reason_of_field(alloc: Global, key: &str, value: &Value) -> Result<Option<String>, AllocError> {
    let reason = match key {
        "trace" if !is_version(value) => format!(in alloc;
            "version {value} is not known (1, 2, 3, 4)"
        ),
        "mode" if !value.as_str().is_some_and(is_mode) => {
            format!(in alloc; "mode {value} is not three octal digits")
        }
        "bytes" if value.as_str().is_some_and(|digits| digits.len() % 2 != 0) => {
            format!(in alloc; "bytes has an odd number of digits")
        }
        _ if !KEYS.contains(&key) => format!(in alloc; "unknown key \"{key}\""),
        _ => return Ok(None),
    };
    Ok(Some(reason?))
}

/// The reason of the first member that has one by itself, as `reason_of_field` gives it. None if no
/// member has one. The error is out of memory.
fn reason_of_members(
    alloc: Global,
    members: Map<String, Value>,
) -> Result<Option<String>, AllocError> {
    for (key, value) in members {
        let reason = reason_of_field(alloc, key.as_str(), &value)?;
        if reason.is_some() {
            return Ok(reason);
        }
    }
    Ok(None)
}

/// Why a line isn't one of a trace: it is empty, begins with a byte order mark, isn't a JSON
/// object, or has a member that is refused by itself. None if it is none of these. Out of memory
/// while the line is read counts as no JSON object; else it is the error.
pub fn reason_of_syntax(alloc: Global, line: &str) -> Result<Option<String>, AllocError> {
    if line.is_empty() {
        return Ok(Some("the file has no line".to_string(alloc)?));
    }
    if line.starts_with('\u{feff}') {
        return Ok(Some("it starts with a byte order mark".to_string(alloc)?));
    }
    match Value::from_str(alloc, line) {
        Ok(Value::Object(members)) => reason_of_members(alloc, members),
        _ => Ok(Some("it is no JSON object".to_string(alloc)?)),
    }
}

/// The text that the name of the operation, or else of the kind of a start line, isn't known. That
/// isn't checked here: the fault has said it. None if the line has neither, or isn't JSON. The
/// error is out of memory.
pub fn reason_of_op(alloc: Global, line: &str) -> Result<Option<String>, AllocError> {
    let Ok(value) = Value::from_str(alloc, line) else {
        return Ok(None);
    };
    for key in ["op", "start"] {
        if let Some(name) = value.get(key) {
            return Ok(Some(format!(in alloc; "unknown {key} {name}")?));
        }
    }
    Ok(None)
}
