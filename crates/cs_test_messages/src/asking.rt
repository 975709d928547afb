//! Messages by their words, as bytes.
use std::alloc::Global;

/// A word for a message, its type, and its fields in their order, a letter each. `1`, `2`, `4` and
/// `8` are numbers of so many bytes, `o` is NOFID and takes no word; the others are in
/// `push_field`.
struct Kind(&'static str, u8, &'static str);

const KINDS: [Kind; 16] = [
    Kind("version", 100, "4s"),
    Kind("auth", 102, "4ss"),
    Kind("attach", 104, "4oss"),
    Kind("attach_by", 104, "44ss"),
    Kind("flush", 108, "2"),
    Kind("walk", 110, "44n"),
    Kind("open", 112, "41"),
    Kind("create", 114, "4sp1"),
    Kind("read", 116, "484"),
    Kind("list", 116, "484"),
    Kind("count", 116, "484"),
    Kind("write", 118, "48d"),
    Kind("clunk", 120, "4"),
    Kind("remove", 122, "4"),
    Kind("stat", 124, "4"),
    Kind("wstat", 126, "4w"),
];

fn kind_of(word: &str) -> Option<&'static Kind> {
    for kind in &KINDS {
        if kind.0 == word {
            return Some(kind);
        }
    }
    None
}

/// Adds the lowest bytes of a number, so many.
fn push_number(bytes: &mut Vec<u8>, width: usize, number: u64) -> Option<()> {
    let spelled = number.to_le_bytes();
    bytes.extend_from_slice(spelled.get(..width)?).ok()
}

/// Adds a text, with its length before it in so many bytes.
fn push_text(bytes: &mut Vec<u8>, width: usize, text: &str) -> Option<()> {
    push_number(bytes, width, text.len() as u64)?;
    bytes.extend_from_slice(text.as_bytes()).ok()
}

/// Adds names, which are between slashes, with their count before them.
fn push_names(bytes: &mut Vec<u8>, names: &str) -> Option<()> {
    if names.is_empty() {
        return push_number(bytes, 2, 0);
    }
    push_number(bytes, 2, names.split('/').count() as u64)?;
    for name in names.split('/') {
        push_text(bytes, 2, name)?;
    }
    Some(())
}

/// A mode: octal digits, with `dir:`, `append:` or `excl:` before them if it is no plain file's
/// (stat(5)).
fn mode_in(mode: &str) -> Option<u64> {
    let (bit, digits) = match mode.split_once(':') {
        Some(("dir", digits)) => (0x8000_0000, digits),
        Some(("append", digits)) => (0x4000_0000, digits),
        Some((_, digits)) => (0x2000_0000, digits),
        None => (0, mode),
    };
    Some(bit | u64::from_str_radix(digits, 8).ok()?)
}

/// What `name=g,mode=600` says of a field, such as `mode=`.
fn change_in<'a>(changes: &'a str, field: &str) -> Option<&'a str> {
    for change in changes.split(',') {
        if let Some(value) = change.strip_prefix(field) {
            return Some(value);
        }
    }
    None
}

/// The number that changes say of a field, or all ones: "don't touch".
fn number_in(changes: &str, field: &str) -> Option<u64> {
    match change_in(changes, field) {
        Some(number) => number.parse::<u64>().ok(),
        None => Some(u64::MAX),
    }
}

/// The mode that changes say, or all ones.
fn new_mode(changes: &str) -> Option<u64> {
    match change_in(changes, "mode=") {
        Some(mode) => mode_in(mode),
        None => Some(u64::MAX),
    }
}

/// Adds a stat that says "don't touch" of every field but those of the changes.
fn push_stat(bytes: &mut Vec<u8>, changes: &str) -> Option<()> {
    let name = change_in(changes, "name=").unwrap_or("");
    let gid = change_in(changes, "gid=").unwrap_or("");
    let texts = (name.len() as u64).saturating_add(gid.len() as u64);
    push_number(bytes, 2, texts.saturating_add(49))?;
    push_number(bytes, 2, texts.saturating_add(47))?;
    // type, dev and qid
    push_number(bytes, 8, u64::MAX)?;
    push_number(bytes, 8, u64::MAX)?;
    push_number(bytes, 3, u64::MAX)?;
    push_number(bytes, 4, new_mode(changes)?)?;
    push_number(bytes, 4, u64::MAX)?;
    push_number(bytes, 4, number_in(changes, "mtime=")?)?;
    push_number(bytes, 8, number_in(changes, "length=")?)?;
    push_text(bytes, 2, name)?;
    push_text(bytes, 2, "")?;
    push_text(bytes, 2, gid)?;
    push_text(bytes, 2, "")
}

/// Adds the field of a letter.
fn push_field(bytes: &mut Vec<u8>, letter: u8, word: &str) -> Option<()> {
    match letter {
        b's' => push_text(bytes, 2, word),
        b'd' => push_text(bytes, 4, word),
        b'n' => push_names(bytes, word),
        b'p' => push_number(bytes, 4, mode_in(word)?),
        b'w' => push_stat(bytes, word),
        width => push_number(bytes, usize::from(width & 15), word.parse::<u64>().ok()?),
    }
}

/// Adds the fields of a message. A word that isn't there is empty.
fn push_fields(bytes: &mut Vec<u8>, fields: &str, words: &str) -> Option<()> {
    let mut words = words.split(' ');
    for letter in fields.as_bytes() {
        if *letter == b'o' {
            push_number(bytes, 4, u64::MAX)?;
        } else {
            push_field(bytes, *letter, words.next().unwrap_or(""))?;
        }
    }
    Some(())
}

/// Adds the message of that type with these fields, and with the tag 1.
fn push_message(bytes: &mut Vec<u8>, number: u8, fields: &[u8]) -> Option<()> {
    push_number(bytes, 4, (fields.len() as u64).saturating_add(7))?;
    bytes.push(number).ok()?;
    push_number(bytes, 2, 1)?;
    bytes.extend_from_slice(fields).ok()
}

/// The bytes of the message that words ask for, with the tag 1.
pub fn message_of(alloc: Global, words: &str) -> Option<Vec<u8>> {
    let (word, words) = words.split_once(' ')?;
    let kind = kind_of(word)?;
    let mut fields = Vec::new(alloc);
    push_fields(&mut fields, kind.2, words)?;
    let mut bytes = Vec::new(alloc);
    push_message(&mut bytes, kind.1, &fields)?;
    Some(bytes)
}
