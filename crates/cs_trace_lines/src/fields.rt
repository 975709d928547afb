//! The JSON object of a line, or of a part of a file: the value of each key of the format, not yet
//! read further. What the values mean is in `values`.
ghost use Rattle.std.specs.Prelude.{◌≡◌, length};
ghost use Rattle.serde_json.specs.Data.{no_members};
ghost use Rattle.serde_json.specs.Find.{as_object};
ghost use Rattle.serde_json.specs.View.{members_view, view};
ghost use Rattle.cs_trace_lines.specs.Faults.{IsRead};
ghost use Rattle.cs_trace_lines.specs.Fields.{field_of, fields_of, has_keys};
ghost use Rattle.cs_trace_lines.specs.Reading.{field_value, field_values, with_field};

use crate::fault::LineFault;
use serde_json::{Map, Number, Value};

/// The value of one key.
#[derive(Drop)]
pub(crate) enum Field {
    /// A text, without its quotes and with its escapes read.
    Text(String),
    /// A number, whole or not.
    Number(Number),
    /// A list.
    Array(Vec<Value>),
    /// A value that no key of the format has: null, true, false or an object.
    Other,
}

/// The value of each key of the format; None for a key that the object doesn't have. `Fields::new`,
/// `put` and `has_keys` list the same keys: change them together.
#[derive(Drop)]
pub(crate) struct Fields {
    /// Of a header: the version.
    pub(crate) trace: Option<Field>,
    /// Of a header: the name of the profile.
    pub(crate) profile: Option<Field>,
    /// Of a header: the size of a block in bytes.
    pub(crate) block: Option<Field>,
    /// Of a start line: its kind.
    pub(crate) start: Option<Field>,
    /// Of an operation: its name.
    pub(crate) op: Option<Field>,
    /// The path of a line.
    pub(crate) path: Option<Field>,
    /// Of a rename or a link: the path that is there already.
    pub(crate) from: Option<Field>,
    /// Of a rename or a link: the new path.
    pub(crate) to: Option<Field>,
    /// The name of the owner.
    pub(crate) owner: Option<Field>,
    /// The name of the group.
    pub(crate) group: Option<Field>,
    /// The permissions, three octal digits.
    pub(crate) mode: Option<Field>,
    /// Of a file, a part or a write: the bytes, in hexadecimal.
    pub(crate) bytes: Option<Field>,
    /// Of a write or an fsync_range: the offset in the file.
    pub(crate) offset: Option<Field>,
    /// Of a file in parts, a truncate or an fsync_range: a number of bytes.
    pub(crate) length: Option<Field>,
    /// Of a say, the text; of a file, a part or a write, the bytes as a text.
    pub(crate) text: Option<Field>,
    /// Of a symbolic link: its target.
    pub(crate) target: Option<Field>,
    /// Of a file: the list of its parts.
    pub(crate) parts: Option<Field>,
    /// Of a part: its offset in the file.
    pub(crate) at: Option<Field>,
    /// A note, which has no effect.
    pub(crate) note: Option<Field>,
    /// Whether the object has a key that isn't one of the above.
    pub(crate) has_others: bool,
}

impl Field {
    /// The field of a JSON value: its text, its number, its items, or Other for any other value.
    fn of(value: Value) -> Field
        ensures { field_value result ≡ field_of (view value) }
    {
        match value {
            Value::String(text) => Field::Text(text),
            Value::Number(number) => Field::Number(number),
            Value::Array(items) => Field::Array(items),
            Value::Null | Value::Bool(_) | Value::Object(_) => Field::Other,
        }
    }
}

/// The members of a JSON value. One that isn't an object is Syntax.
pub(crate) fn members_of(value: Value) -> Result<Map<String, Value>, LineFault>
    ensures { IsRead (λ members. members_view members.entries) (as_object (view value)) result }
{
    match value {
        Value::Object(members) => Ok(members),
        _ => Err(LineFault::Syntax),
    }
}

impl Fields {
    /// The fields of an object without keys.
    pub(crate) fn new() -> Fields
        ensures { field_values result ≡ fields_of no_members }
    {
        Fields {
            trace: None,
            profile: None,
            block: None,
            start: None,
            op: None,
            path: None,
            from: None,
            to: None,
            owner: None,
            group: None,
            mode: None,
            bytes: None,
            offset: None,
            length: None,
            text: None,
            target: None,
            parts: None,
            at: None,
            note: None,
            has_others: false,
        }
    }

    /// Sets the field of a key, in place of an earlier one. A key that the format doesn't have only
    /// sets `has_others`. The length of the key is looked at first, which is faster than to compare
    /// it with each.
    fn put(&mut self, key: &str, field: Field)
        ensures { field_values self.new
            ≡ with_field key.now (field_value field) (field_values self.old) }
    {
        match key.len() {
            2 => self.put_two_letters(key, field),
            4 => self.put_four_letters(key, field),
            5 => self.put_five_letters(key, field),
            6 => self.put_six_letters(key, field),
            _ => match key {
                "profile" => self.profile = Some(field),
                _ => self.has_others = true,
            },
        }
    }

    /// As `put`, for a key of 2 bytes.
    fn put_two_letters(&mut self, key: &str, field: Field)
        requires { length key.now ≡ 2 }
        ensures { field_values self.new
            ≡ with_field key.now (field_value field) (field_values self.old) }
    {
        match key {
            "op" => self.op = Some(field),
            "to" => self.to = Some(field),
            "at" => self.at = Some(field),
            _ => self.has_others = true,
        }
    }

    /// As `put`, for a key of 4 bytes.
    fn put_four_letters(&mut self, key: &str, field: Field)
        requires { length key.now ≡ 4 }
        ensures { field_values self.new
            ≡ with_field key.now (field_value field) (field_values self.old) }
    {
        match key {
            "path" => self.path = Some(field),
            "mode" => self.mode = Some(field),
            "from" => self.from = Some(field),
            "text" => self.text = Some(field),
            "note" => self.note = Some(field),
            _ => self.has_others = true,
        }
    }

    /// As `put`, for a key of 5 bytes.
    fn put_five_letters(&mut self, key: &str, field: Field)
        requires { length key.now ≡ 5 }
        ensures { field_values self.new
            ≡ with_field key.now (field_value field) (field_values self.old) }
    {
        match key {
            "bytes" => self.bytes = Some(field),
            "start" => self.start = Some(field),
            "owner" => self.owner = Some(field),
            "group" => self.group = Some(field),
            "parts" => self.parts = Some(field),
            "trace" => self.trace = Some(field),
            "block" => self.block = Some(field),
            _ => self.has_others = true,
        }
    }

    /// As `put`, for a key of 6 bytes.
    fn put_six_letters(&mut self, key: &str, field: Field)
        requires { length key.now ≡ 6 }
        ensures { field_values self.new
            ≡ with_field key.now (field_value field) (field_values self.old) }
    {
        match key {
            "offset" => self.offset = Some(field),
            "length" => self.length = Some(field),
            "target" => self.target = Some(field),
            _ => self.has_others = true,
        }
    }

    /// Puts the members of a JSON object into the fields, which must be as `Fields::new` makes
    /// them. (They are filled in place, because they are large.)
    pub(crate) fn put_members(&mut self, members: Map<String, Value>)
        requires { field_values self.old ≡ fields_of no_members }
        ensures { field_values self.new ≡ fields_of (members_view members.entries) }
    {
        for (key, value) in members {
            self.put(key.as_str(), Field::of(value));
        }
    }

    /// Whether the object has exactly `count` keys of the format, `note` not counted, and no other
    /// keys. Which ones isn't looked at.
    pub(crate) fn has_keys(&self, count: usize) -> bool
        ensures { result ≡ has_keys count (field_values self.now) }
    {
        let given = usize::from(self.trace.is_some())
            + usize::from(self.profile.is_some())
            + usize::from(self.block.is_some())
            + usize::from(self.start.is_some())
            + usize::from(self.op.is_some())
            + usize::from(self.path.is_some())
            + usize::from(self.from.is_some())
            + usize::from(self.to.is_some())
            + usize::from(self.owner.is_some())
            + usize::from(self.group.is_some())
            + usize::from(self.mode.is_some())
            + usize::from(self.bytes.is_some())
            + usize::from(self.offset.is_some())
            + usize::from(self.length.is_some())
            + usize::from(self.text.is_some())
            + usize::from(self.target.is_some())
            + usize::from(self.parts.is_some())
            + usize::from(self.at.is_some());
        !self.has_others && given == count
    }
}
