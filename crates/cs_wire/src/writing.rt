//! Messages as bytes. Each `put_` function appends what its field can hold to a `Vec` that has room
//! for it, so it allocates nothing and can't fail. Only the public functions make room first. How
//! long a message is, and whether it can be written at all, is found in `fitting`.

ghost use Rattle.std.specs.Prelude.{◌≡◌, ◌≤◌, ◌+◌, ◌++◌, length, map, vec_len, vec_capacity, OnOk};
ghost use Rattle.std.specs.Prelude.{OnErr, IsOk};
ghost use Rattle.std.specs.List.{flat_map, AllByRecursion};
ghost use Rattle.cs_wire.specs.Fields.{One, Two, Four, Eight, Text, Raw, Several, Boxed, ◌▸◌, IsIn};
ghost use Rattle.cs_wire.specs.Fields.{bytes_of_field};
ghost use Rattle.cs_wire.specs.Messages.{names_of, qid_of, qid_shape, users_in, stat_in};
ghost use Rattle.cs_wire.specs.Messages.{stat_shape, stat_entry, IsEntry, t_view, r_view, Fits};
ghost use Rattle.cs_wire.specs.Messages.{spelling};
ghost use Rattle.cs_wire.specs.Bodies.{request_number, request_bytes, RequestFits, reply_number};
ghost use Rattle.cs_wire.specs.Bodies.{reply_bytes, ReplyFits};

use crate::message::{Qid, RBody, RMessage, TBody, TMessage};
use crate::stat::StatRef;
use crate::table::{each_reply, each_request};
use std::alloc::AllocError;

/// Appends the bytes, without their count. The caller has reserved room for them.
fn put_bytes(out: &mut Vec<u8>, bytes: &[u8])
    requires { vec_len out.old + length bytes.now ≤ vec_capacity out.old }
    ensures items { out.new.items ≡ out.old.items ++ bytes.now }
    ensures len { vec_len out.new ≡ vec_len out.old + length bytes.now }
    ensures capacity { vec_capacity out.old ≤ vec_capacity out.new }
{
    // the caller has reserved the memory
    out.extend_from_slice(bytes).unwrap();
}

/// Appends a number of one byte.
#[tactic(auto, unfolding(crate::specs::Fields::bytes_of_field))]
fn put_u8(out: &mut Vec<u8>, number: u8)
    requires { vec_len out.old + 1 ≤ vec_capacity out.old }
    ensures items { out.new.items ≡ out.old.items ++ bytes_of_field One number }
    ensures len { vec_len out.new ≡ vec_len out.old + 1 }
    ensures capacity { vec_capacity out.old ≤ vec_capacity out.new }
{
    put_bytes(out, &number.to_le_bytes());
}

/// Appends a number of two bytes, the low one first.
#[tactic(auto, unfolding(crate::specs::Fields::bytes_of_field))]
fn put_u16(out: &mut Vec<u8>, number: u16)
    requires { vec_len out.old + 2 ≤ vec_capacity out.old }
    ensures items { out.new.items ≡ out.old.items ++ bytes_of_field Two number }
    ensures len { vec_len out.new ≡ vec_len out.old + 2 }
    ensures capacity { vec_capacity out.old ≤ vec_capacity out.new }
{
    put_bytes(out, &number.to_le_bytes());
}

/// Appends a number of four bytes, the low one first.
#[tactic(auto, unfolding(crate::specs::Fields::bytes_of_field))]
fn put_u32(out: &mut Vec<u8>, number: u32)
    requires { vec_len out.old + 4 ≤ vec_capacity out.old }
    ensures items { out.new.items ≡ out.old.items ++ bytes_of_field Four number }
    ensures len { vec_len out.new ≡ vec_len out.old + 4 }
    ensures capacity { vec_capacity out.old ≤ vec_capacity out.new }
{
    put_bytes(out, &number.to_le_bytes());
}

/// Appends a number of eight bytes, the low one first.
#[tactic(auto, unfolding(crate::specs::Fields::bytes_of_field))]
fn put_u64(out: &mut Vec<u8>, number: u64)
    requires { vec_len out.old + 8 ≤ vec_capacity out.old }
    ensures items { out.new.items ≡ out.old.items ++ bytes_of_field Eight number }
    ensures len { vec_len out.new ≡ vec_len out.old + 8 }
    ensures capacity { vec_capacity out.old ≤ vec_capacity out.new }
{
    put_bytes(out, &number.to_le_bytes());
}

/// Appends a text: its length in two bytes, which `fits` bounds, and its bytes.
#[tactic(auto, unfolding(crate::specs::Fields::bytes_of_field))]
fn put_text(out: &mut Vec<u8>, text: &str)
    requires fits { IsIn Text text.now }
    requires room { vec_len out.old + (length text.now + 2) ≤ vec_capacity out.old }
    ensures items { out.new.items ≡ out.old.items ++ bytes_of_field Text text.now }
    ensures len { vec_len out.new ≡ vec_len out.old + (length text.now + 2) }
    ensures capacity { vec_capacity out.old ≤ vec_capacity out.new }
{
    put_u16(out, text.len() as u16);
    put_bytes(out, text.as_bytes());
}

/// Appends the 13 bytes of a qid.
#[tactic(auto, unfolding(crate::specs::Fields::bytes_of_field))]
fn put_qid(out: &mut Vec<u8>, qid: &Qid)
    requires { vec_len out.old + 13 ≤ vec_capacity out.old }
    ensures items { out.new.items ≡ out.old.items ++ bytes_of_field qid_shape (qid_of qid.now) }
    ensures len { vec_len out.new ≡ vec_len out.old + 13 }
    ensures capacity { vec_capacity out.old ≤ vec_capacity out.new }
{
    put_u8(out, qid.kind);
    put_u32(out, qid.vers);
    put_u64(out, qid.path);
}

/// Appends the names one after the other, each after its length, without a count before them.
fn put_each_name(out: &mut Vec<u8>, names: &[String])
    requires fits { AllByRecursion (IsIn Text) (names_of names.now) }
    requires room { vec_len out.old + length (flat_map (bytes_of_field Text) (names_of names.now))
        ≤ vec_capacity out.old }
    ensures items { out.new.items ≡ out.old.items
        ++ flat_map (bytes_of_field Text) (names_of names.now) }
    ensures len { vec_len out.new
        ≡ vec_len out.old + length (flat_map (bytes_of_field Text) (names_of names.now)) }
    ensures capacity { vec_capacity out.old ≤ vec_capacity out.new }
{
    for name in names {
        put_text(out, name.as_str());
    }
}

/// Appends the qids one after the other, without a count before them.
fn put_each_qid(out: &mut Vec<u8>, qids: &[Qid])
    requires room { vec_len out.old + length
        (flat_map (bytes_of_field qid_shape) (map qid_of qids.now)) ≤ vec_capacity out.old }
    ensures items { out.new.items ≡ out.old.items
        ++ flat_map (bytes_of_field qid_shape) (map qid_of qids.now) }
    ensures len { vec_len out.new
        ≡ vec_len out.old + length (flat_map (bytes_of_field qid_shape) (map qid_of qids.now)) }
    ensures capacity { vec_capacity out.old ≤ vec_capacity out.new }
{
    for qid in qids {
        put_qid(out, qid);
    }
}

/// Appends the names of a walk, at most 16, after their count in two bytes.
#[tactic(auto, unfolding(crate::specs::Fields::bytes_of_field))]
fn put_names(out: &mut Vec<u8>, names: &[String])
    requires fits { IsIn (Several Text) (names_of names.now) }
    requires room { vec_len out.old + length (bytes_of_field (Several Text) (names_of names.now))
        ≤ vec_capacity out.old }
    ensures items { out.new.items ≡ out.old.items
        ++ bytes_of_field (Several Text) (names_of names.now) }
    ensures len { vec_len out.new
        ≡ vec_len out.old + length (bytes_of_field (Several Text) (names_of names.now)) }
    ensures capacity { vec_capacity out.old ≤ vec_capacity out.new }
{
    put_u16(out, names.len() as u16);
    put_each_name(out, names);
}

/// Appends the qids of a walk, at most 16, after their count in two bytes.
#[tactic(auto, unfolding(crate::specs::Fields::bytes_of_field))]
fn put_qids(out: &mut Vec<u8>, wqid: &[Qid])
    requires fits { IsIn (Several qid_shape) (map qid_of wqid.now) }
    requires room { vec_len out.old + length
        (bytes_of_field (Several qid_shape) (map qid_of wqid.now)) ≤ vec_capacity out.old }
    ensures items { out.new.items ≡ out.old.items
        ++ bytes_of_field (Several qid_shape) (map qid_of wqid.now) }
    ensures len { vec_len out.new
        ≡ vec_len out.old + length (bytes_of_field (Several qid_shape) (map qid_of wqid.now)) }
    ensures capacity { vec_capacity out.old ≤ vec_capacity out.new }
{
    put_u16(out, wqid.len() as u16);
    put_each_qid(out, wqid);
}

/// Appends bytes, after their count in four bytes, which `fits` bounds.
#[tactic(auto, unfolding(crate::specs::Fields::bytes_of_field))]
fn put_data(out: &mut Vec<u8>, bytes: &[u8])
    requires fits { IsIn Raw bytes.now }
    requires room { vec_len out.old + (length bytes.now + 4) ≤ vec_capacity out.old }
    ensures items { out.new.items ≡ out.old.items ++ bytes_of_field Raw bytes.now }
    ensures len { vec_len out.new ≡ vec_len out.old + (length bytes.now + 4) }
    ensures capacity { vec_capacity out.old ≤ vec_capacity out.new }
{
    put_u32(out, bytes.len() as u32);
    put_bytes(out, bytes);
}

/// Appends the last four fields of a stat: name, owner, group and last writer.
#[tactic(auto, unfolding(crate::specs::Fields::bytes_of_field))]
fn put_stat_texts(out: &mut Vec<u8>, stat: &StatRef)
    requires fits { IsIn (Text ▸ Text ▸ Text ▸ Text) (users_in stat.now) }
    requires room { vec_len out.old + length
        (bytes_of_field (Text ▸ Text ▸ Text ▸ Text) (users_in stat.now)) ≤ vec_capacity out.old }
    ensures items { out.new.items ≡ out.old.items
        ++ bytes_of_field (Text ▸ Text ▸ Text ▸ Text) (users_in stat.now) }
    ensures capacity { vec_capacity out.old ≤ vec_capacity out.new }
{
    put_text(out, stat.name);
    put_text(out, stat.uid);
    put_text(out, stat.gid);
    put_text(out, stat.muid);
}

/// Appends the fields of a stat, without a size before them: 39 bytes of numbers, and the texts.
fn put_stat_fields(out: &mut Vec<u8>, stat: &StatRef)
    requires fits { IsIn (Text ▸ Text ▸ Text ▸ Text) (users_in stat.now) }
    requires room { vec_len
        out.old + (39 + length (bytes_of_field (Text ▸ Text ▸ Text ▸ Text) (users_in stat.now)))
        ≤ vec_capacity out.old }
    ensures items { out.new.items ≡ out.old.items ++ bytes_of_field stat_shape (stat_in stat.now) }
    ensures capacity { vec_capacity out.old ≤ vec_capacity out.new }
{
    put_u16(out, stat.kind);
    put_u32(out, stat.dev);
    put_qid(out, &stat.qid);
    put_u32(out, stat.mode);
    put_u32(out, stat.atime);
    put_u32(out, stat.mtime);
    put_u64(out, stat.length);
    put_stat_texts(out, stat);
}

/// Appends a stat as a directory's entry: the size of its fields in two bytes, and the fields. The
/// size leaves out its own two bytes.
fn put_entry(out: &mut Vec<u8>, stat: &StatRef)
    requires fits { IsEntry (stat_in stat.now) }
    requires room { vec_len out.old + length (stat_entry (stat_in stat.now))
        ≤ vec_capacity out.old }
    ensures items { out.new.items ≡ out.old.items ++ stat_entry (stat_in stat.now) }
    ensures capacity { vec_capacity out.old ≤ vec_capacity out.new }
{
    put_u16(out, (stat.entry_length() - 2) as u16);
    put_stat_fields(out, stat);
}

/// Appends a stat as a message has it: the size of its entry in two bytes, and the entry.
fn put_stat(out: &mut Vec<u8>, stat: &StatRef)
    requires fits { IsIn (Boxed stat_shape) (stat_in stat.now) }
    requires room { vec_len out.old + length (bytes_of_field (Boxed stat_shape) (stat_in stat.now))
        ≤ vec_capacity out.old }
    ensures items { out.new.items ≡ out.old.items
        ++ bytes_of_field (Boxed stat_shape) (stat_in stat.now) }
    ensures capacity { vec_capacity out.old ≤ vec_capacity out.new }
{
    put_u16(out, stat.entry_length() as u16);
    put_entry(out, stat);
}

/// Appends a field, by what it holds according to the table.
macro_rules! put_field {
    ($out:ident u8 $number:ident) => { put_u8($out, *$number) };
    ($out:ident u16 $number:ident) => { put_u16($out, *$number) };
    ($out:ident u32 $number:ident) => { put_u32($out, *$number) };
    ($out:ident u64 $number:ident) => { put_u64($out, *$number) };
    ($out:ident qid $qid:ident) => { put_qid($out, $qid) };
    ($out:ident text $text:ident) => { put_text($out, $text.as_str()) };
    ($out:ident names $names:ident) => { put_names($out, $names) };
    ($out:ident qids $qids:ident) => { put_qids($out, $qids) };
    ($out:ident data $bytes:ident) => { put_data($out, $bytes) };
    ($out:ident stat $stat:ident) => { put_stat($out, &$stat.as_stat_ref()) };
}

/// Appends the fields of a body, one match arm for each row of the table.
macro_rules! put_body {
    (($body:ident $bodies:ident $out:ident)
    $($name:ident $title:literal $code:literal { $($field:ident: $holds:ident),* })*) => {
        match $body {
            $($bodies::$name { $($field),* } => { $(put_field!($out $holds $field);)* })*
        }
    };
}

/// Appends the fields of a request, in the order of the table.
#[tactic(auto, unfolding(crate::specs::Fields::bytes_of_field))]
fn put_request(out: &mut Vec<u8>, body: &TBody<'_>)
    requires fits { RequestFits body.now }
    requires room { vec_len out.old + length (request_bytes body.now) ≤ vec_capacity out.old }
    ensures items { out.new.items ≡ out.old.items ++ request_bytes body.now }
    ensures capacity { vec_capacity out.old ≤ vec_capacity out.new }
{
    each_request!(put_body (body TBody out))
}

/// Appends the fields of a reply, in the order of the table.
#[tactic(auto, unfolding(crate::specs::Fields::bytes_of_field))]
fn put_reply(out: &mut Vec<u8>, body: &RBody)
    requires fits { ReplyFits body.now }
    requires room { vec_len out.old + length (reply_bytes body.now) ≤ vec_capacity out.old }
    ensures items { out.new.items ≡ out.old.items ++ reply_bytes body.now }
    ensures capacity { vec_capacity out.old ≤ vec_capacity out.new }
{
    each_reply!(put_body (body RBody out))
}

/// The number of a body's type, from the table.
macro_rules! number_of_body {
    (($body:ident $bodies:ident)
    $($name:ident $title:literal $code:literal { $($field:ident: $holds:ident),* })*) => {
        match $body {
            $($bodies::$name { .. } => $code,)*
        }
    };
}

/// The number of the request's type, such as 110 for a Twalk.
fn request_type(body: &TBody<'_>) -> u8
    ensures { result ≡ request_number body.now }
{
    each_request!(number_of_body (body TBody))
}

/// The number of the reply's type, such as 111 for an Rwalk.
fn reply_type(body: &RBody) -> u8
    ensures { result ≡ reply_number body.now }
{
    each_reply!(number_of_body (body RBody))
}

/// Appends the first seven bytes of a message: its size, these seven included, the number of its
/// type, and its tag.
fn put_header(out: &mut Vec<u8>, size: u32, number: u8, tag: u16)
    requires { vec_len out.old + 7 ≤ vec_capacity out.old }
    ensures items { out.new.items ≡ out.old.items
        ++ (bytes_of_field Four size ++ (bytes_of_field One number ++ bytes_of_field Two tag)) }
    ensures len { vec_len out.new ≡ vec_len out.old + 7 }
    ensures capacity { vec_capacity out.old ≤ vec_capacity out.new }
{
    put_u32(out, size);
    put_u8(out, number);
    put_u16(out, tag);
}

/// Appends the only spelling of the reply (intro(5)). The reply must fit (`fits`). If `out` has
/// room, the call allocates nothing and succeeds. If memory runs out, the bytes in `out` are
/// unchanged.
pub fn encode_reply(message: &RMessage, out: &mut Vec<u8>) -> Result<(), AllocError>
    requires { Fits (r_view message.now) }
    ensures ok { OnOk result (out.new.items ≡ out.old.items ++ spelling (r_view message.now)) }
    ensures room { vec_len out.old + length (spelling (r_view message.now)) ≤ vec_capacity out.old
        → IsOk result }
    ensures capacity { vec_capacity out.old ≤ vec_capacity out.new }
    ensures err { OnErr result (out.new.items ≡ out.old.items) }
{
    let size = message.spelled_length();
    out.reserve(size)?;
    put_header(out, size as u32, reply_type(&message.body), message.tag);
    put_reply(out, &message.body);
    Ok(())
}

/// Appends the only spelling of the request (intro(5)). The request must fit (`fits`). If `out` has
/// room, the call allocates nothing and succeeds. If memory runs out, the bytes in `out` are
/// unchanged.
pub fn encode_request(message: &TMessage<'_>, out: &mut Vec<u8>) -> Result<(), AllocError>
    requires { Fits (t_view message.now) }
    ensures ok { OnOk result (out.new.items ≡ out.old.items ++ spelling (t_view message.now)) }
    ensures room { vec_len out.old + length (spelling (t_view message.now)) ≤ vec_capacity out.old
        → IsOk result }
    ensures capacity { vec_capacity out.old ≤ vec_capacity out.new }
    ensures err { OnErr result (out.new.items ≡ out.old.items) }
{
    let size = message.spelled_length();
    out.reserve(size)?;
    put_header(out, size as u32, request_type(&message.body), message.tag);
    put_request(out, &message.body);
    Ok(())
}

impl StatRef<'_> {
    /// Appends the bytes of the stat's entry, as a read of a directory has them (stat(5)). The stat
    /// must fit (`fits`). If `out` has room, the call allocates nothing and succeeds. If memory
    /// runs out, the bytes in `out` are unchanged.
    pub fn encode_entry(&self, out: &mut Vec<u8>) -> Result<(), AllocError>
        requires { IsEntry (stat_in self.now) }
        ensures ok { OnOk result (out.new.items ≡ out.old.items ++ stat_entry (stat_in self.now)) }
        ensures room { vec_len out.old + length (stat_entry (stat_in self.now))
            ≤ vec_capacity out.old → IsOk result }
        ensures err { OnErr result (out.new.items ≡ out.old.items) }
    {
        out.reserve(self.entry_length())?;
        put_entry(out, self);
        Ok(())
    }
}
