//! The users of `serve` without a users file: those that the trace names.

use serde_json::Value;
use std::alloc::{AllocError, Global};

/// Adds the owner and the group that a line of a trace names, unless they are there. A line that
/// isn't JSON, or that there is no memory to read, names none. A name that is empty or has a colon
/// isn't added: no users file has it. An error is out of memory; the owner may be added then.
fn add_names(alloc: Global, line: &str, names: &mut Vec<String>) -> Result<(), AllocError> {
    let Ok(value) = Value::from_str(alloc, line) else {
        return Ok(());
    };
    for key in ["owner", "group"] {
        let name = match value.get(key) {
            Some(name) => name.as_str().unwrap_or(""),
            None => "",
        };
        let is_plain = !name.is_empty() && !name.contains(':');
        if is_plain && !names.iter().any(|other| other.as_str() == name) {
            names.push(name.to_string(alloc)?)?;
        }
    }
    Ok(())
}

/// The owners and groups that a trace names, each once, in the order of the trace. The error is out
/// of memory.
fn names_of(alloc: Global, trace: &str) -> Result<Vec<String>, AllocError> {
    let mut names = Vec::new(alloc);
    for line in trace.split('\n') {
        add_names(alloc, line, &mut names)?;
    }
    Ok(names)
}

/// The bytes of a users file with a line for each owner and each group that the trace names: users
/// without members, whose id is their name. Empty if the trace isn't UTF-8, or names nobody. The
/// form is that of users(6): `id:name:leader:members`. The error is out of memory.
pub fn users_of_trace(alloc: Global, trace: &[u8]) -> Result<Vec<u8>, AllocError> {
    let mut bytes = Vec::new(alloc);
    for name in &names_of(alloc, std::str::from_utf8(trace).unwrap_or(""))? {
        let line = format!(in alloc; "{name}:{name}::\n")?;
        bytes.extend_from_slice(line.as_bytes())?;
    }
    Ok(bytes)
}
