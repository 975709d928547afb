//! Which messages have a spelling, and its length. Each `size_of_` function gives the number of
//! bytes that a field takes, or None if the field can't hold the value. Its clause `small` bounds
//! the number, from above in round figures, so that no sum overflows. `writing` makes the bytes.

ghost use Rattle.std.specs.Prelude.{◌≡◌, ◌≤◌, ◌<◌, length, true, IfSome, Some, Option, map, ◌↔◌};
ghost use Rattle.cs_wire.specs.Fields.{One, Two, Four, Eight, Text, Several, Raw, ◌▸◌, is_text};
ghost use Rattle.cs_wire.specs.Fields.{size_of, sizes_of, entry_size, sum_if_both};
ghost use Rattle.cs_wire.specs.Messages.{names_of, qid_of, qid_shape, stat_in, stat_shape, t_view};
ghost use Rattle.cs_wire.specs.Messages.{r_view, Fits, spelling, IsEntry, stat_entry};
ghost use Rattle.cs_wire.specs.Bodies.{request_size, reply_size};

use crate::cursor::has_nul;
use crate::message::{Qid, RBody, RMessage, TBody, TMessage};
use crate::stat::StatRef;
use crate::table::{each_reply, each_request};
use cs_names::laws::know;
use cs_names::limits::{MESSAGE_BYTES, WALK_NAMES};

/// The size of a number of one byte: 1.
#[tactic(auto, unfolding(crate::specs::Fields::size_of))]
fn size_of_u8(number: &u8) -> usize
    ensures size { size_of One number.now ≡ Some result }
    ensures small { result ≡ 1 }
{
    // only the contract needs the number
    know(*number);
    1
}

/// The size of a number of two bytes: 2.
#[tactic(auto, unfolding(crate::specs::Fields::size_of))]
fn size_of_u16(number: &u16) -> usize
    ensures size { size_of Two number.now ≡ Some result }
    ensures small { result ≡ 2 }
{
    // only the contract needs the number
    know(*number);
    2
}

/// The size of a number of four bytes: 4.
#[tactic(auto, unfolding(crate::specs::Fields::size_of))]
fn size_of_u32(number: &u32) -> usize
    ensures size { size_of Four number.now ≡ Some result }
    ensures small { result ≡ 4 }
{
    // only the contract needs the number
    know(*number);
    4
}

/// The size of a number of eight bytes: 8.
#[tactic(auto, unfolding(crate::specs::Fields::size_of))]
fn size_of_u64(number: &u64) -> usize
    ensures size { size_of Eight number.now ≡ Some result }
    ensures small { result ≡ 8 }
{
    // only the contract needs the number
    know(*number);
    8
}

/// The size of a qid: 13.
#[tactic(auto, unfolding(crate::specs::Fields::size_of))]
fn size_of_qid(qid: &Qid) -> usize
    ensures size { size_of qid_shape (qid_of qid.now) ≡ Some result }
    ensures small { result ≡ 13 }
{
    size_of_u8(&qid.kind) + size_of_u32(&qid.vers) + size_of_u64(&qid.path)
}

/// Whether a message may have the text, which is UTF-8: no byte of it is NUL.
fn has_no_nul(text: &str) -> bool
    ensures { result ≡ is_text text.now }
{
    !has_nul(text.as_bytes())
}

/// The size of a text, with the two bytes of its length; None if it has a NUL, or is longer than
/// the 65,535 bytes that two bytes can count.
#[tactic(auto, unfolding(crate::specs::Fields::size_of))]
fn size_of_text(text: &str) -> Option<usize>
    ensures size { result ≡ size_of Text text.now }
    ensures small { IfSome result (λ size. size ≤ 65537) }
{
    if text.len() > 65_535 || !has_no_nul(text) {
        return None;
    }
    Some(text.len() + 2)
}

/// The size of data, with the four bytes of its count; None if it is longer than the 4,294,967,295
/// bytes that four bytes can count.
#[tactic(auto, unfolding(crate::specs::Fields::size_of))]
fn size_of_data(bytes: &[u8]) -> Option<usize>
    ensures size { result ≡ size_of Raw bytes.now }
    ensures small { IfSome result (λ size. size ≤ 4294967299) }
{
    if bytes.len() > 4_294_967_295 {
        return None;
    }
    Some(bytes.len() + 4)
}

/// The sum of the sizes of at most 16 names, without a count before them; None if one of them is
/// too long or has a NUL.
fn size_of_each_name(names: &[String]) -> Option<usize>
    requires { length names.now ≤ WALK_NAMES }
    ensures size { result ≡ sizes_of (size_of Text) (names_of names.now) }
    ensures small { IfSome result (λ size. size ≤ 1048592) }
{
    let mut total = 0;
    for name in names {
        total += size_of_text(name.as_str())?;
    }
    Some(total)
}

/// The sum of the sizes of at most 16 qids, without a count before them.
fn size_of_each_qid(qids: &[Qid]) -> usize
    requires { length qids.now ≤ WALK_NAMES }
    ensures size { sizes_of (size_of qid_shape) (map qid_of qids.now) ≡ Some result }
    ensures small { result ≤ 208 }
{
    let mut total = 0;
    for item in qids {
        total += size_of_qid(item);
    }
    total
}

/// The size of a walk's names, with the two bytes of their count; None if there are more than 16,
/// or if one of them is too long or has a NUL.
#[tactic(auto, unfolding(crate::specs::Fields::size_of))]
fn size_of_names(wname: &[String]) -> Option<usize>
    ensures size { result ≡ size_of (Several Text) (names_of wname.now) }
    ensures small { IfSome result (λ size. size ≤ 1048594) }
{
    if wname.len() > WALK_NAMES as usize {
        return None;
    }
    Some(2 + size_of_each_name(wname)?)
}

/// The size of a walk's qids, with the two bytes of their count; None if there are more than 16.
#[tactic(auto, unfolding(crate::specs::Fields::size_of))]
fn size_of_qids(wqid: &[Qid]) -> Option<usize>
    ensures size { result ≡ size_of (Several qid_shape) (map qid_of wqid.now) }
    ensures small { IfSome result (λ size. size ≤ 210) }
{
    if wqid.len() > WALK_NAMES as usize {
        return None;
    }
    Some(2 + size_of_each_qid(wqid))
}

/// The size of a stat's fields, without a size before them; None if one of its texts is too long or
/// has a NUL.
#[tactic(auto, unfolding(crate::specs::Fields::size_of))]
fn size_of_stat_fields(stat: &StatRef) -> Option<usize>
    ensures size { result ≡ size_of stat_shape (stat_in stat.now) }
    ensures small { IfSome result (λ size. size ≤ 300000) }
{
    let numbers = size_of_u16(&stat.kind)
        + size_of_u32(&stat.dev)
        + size_of_qid(&stat.qid)
        + size_of_u32(&stat.mode);
    let times = size_of_u32(&stat.atime) + size_of_u32(&stat.mtime) + size_of_u64(&stat.length);
    let name = size_of_text(stat.name)?;
    let users = size_of_text(stat.uid)? + size_of_text(stat.gid)? + size_of_text(stat.muid)?;
    Some(numbers + times + name + users)
}

/// The size of a stat's entry, with the two bytes of its own size. None if one of its texts is too
/// long or has a NUL, or if the whole is above 65,535: a message gives the length of an entry in
/// two bytes.
fn size_of_entry(stat: &StatRef) -> Option<usize>
    ensures size { result ≡ entry_size (size_of stat_shape (stat_in stat.now)) }
    ensures small { IfSome result (λ size. size < 65536) }
{
    let size = 2 + size_of_stat_fields(stat)?;
    if size > 65_535 {
        return None;
    }
    Some(size)
}

/// The number of bytes of a field, by what it holds according to the table; if it can't hold the
/// value, the function around it returns None.
macro_rules! field_size {
    (u8 $number:ident) => { size_of_u8($number) };
    (u16 $number:ident) => { size_of_u16($number) };
    (u32 $number:ident) => { size_of_u32($number) };
    (u64 $number:ident) => { size_of_u64($number) };
    (qid $qid:ident) => { size_of_qid($qid) };
    (text $text:ident) => { size_of_text($text.as_str())? };
    (names $names:ident) => { size_of_names($names)? };
    (qids $qids:ident) => { size_of_qids($qids)? };
    (data $bytes:ident) => { size_of_data($bytes)? };
    (stat $stat:ident) => { 2 + size_of_entry(&$stat.as_stat_ref())? };
}

/// The number of bytes of a body's fields, with one match arm for each row of the table.
macro_rules! size_of_body {
    (($body:ident $bodies:ident)
    $($name:ident $title:literal $code:literal { $($field:ident: $holds:ident),* })*) => {
        match $body {
            $($bodies::$name { $($field),* } => Some(0 $(+ field_size!($holds $field))*),)*
        }
    };
}

/// The sum of the sizes of a request's fields; None if a field can't hold its value, as the
/// functions above say.
#[tactic(auto, unfolding(crate::specs::Fields::size_of))]
fn size_of_request_fields(body: &TBody<'_>) -> Option<usize>
    ensures size { result ≡ request_size body.now }
    ensures small { IfSome result (λ size. size ≤ 4295000000) }
{
    each_request!(size_of_body (body TBody))
}

/// The sum of the sizes of a reply's fields; None if a field can't hold its value, as the functions
/// above say.
#[tactic(auto, unfolding(crate::specs::Fields::size_of))]
fn size_of_reply_fields(body: &RBody) -> Option<usize>
    ensures size { result ≡ reply_size body.now }
    ensures small { IfSome result (λ size. size ≤ 4295000000) }
{
    each_reply!(size_of_body (body RBody))
}

/// The size of a message whose fields have this size, which is a sum of `size_of_request_fields` or
/// `size_of_reply_fields`: seven bytes more, for size, type and tag. None if `fields` is None. The
/// tag's number doesn't matter.
#[tactic(auto, unfolding(crate::specs::Fields::size_of))]
fn size_with_header(tag: &u16, fields: Option<usize>) -> Option<usize>
    requires { IfSome fields (λ size. size ≤ 4295000000) }
    ensures size { result ≡ sum_if_both (size_of (Four ▸ One ▸ Two) (0, (0, tag.now))) fields }
{
    // four bytes of size, one of type
    Some(5 + size_of_u16(tag) + fields?)
}

impl TMessage<'_> {
    /// Whether the request has a spelling of at most 65,536 bytes. It has none if a text has a NUL
    /// or more than 65,535 bytes, if a walk has more than 16 names, if a stat's entry has more than
    /// 65,535 bytes, or if its data has 2^32 bytes or more. A session's message size, which may be
    /// smaller, isn't asked.
    pub fn fits(&self) -> bool
        ensures { result ≡ true ↔ Fits (t_view self.now) }
    {
        match size_with_header(&self.tag, size_of_request_fields(&self.body)) {
            Some(length) => length <= MESSAGE_BYTES as usize,
            None => false,
        }
    }

    /// The length in bytes of the request's spelling, which is what `encode_request` appends, with
    /// the four of its size. The request must fit (`fits`).
    pub fn spelled_length(&self) -> usize
        requires { Fits (t_view self.now) }
        ensures { result ≡ length (spelling (t_view self.now)) }
    {
        // a message that fits has a size
        size_with_header(&self.tag, size_of_request_fields(&self.body)).unwrap()
    }
}

impl RMessage {
    /// Whether the reply has a spelling of at most 65,536 bytes. It has none if a text has a NUL or
    /// more than 65,535 bytes, if a walk has more than 16 qids, if a stat's entry has more than
    /// 65,535 bytes, or if its data has 2^32 bytes or more. A session's message size, which may be
    /// smaller, isn't asked.
    pub fn fits(&self) -> bool
        ensures { result ≡ true ↔ Fits (r_view self.now) }
    {
        match size_with_header(&self.tag, size_of_reply_fields(&self.body)) {
            Some(length) => length <= MESSAGE_BYTES as usize,
            None => false,
        }
    }

    /// The length in bytes of the reply's spelling, which is what `encode_reply` appends, with the
    /// four of its size. The reply must fit (`fits`).
    pub fn spelled_length(&self) -> usize
        requires { Fits (r_view self.now) }
        ensures { result ≡ length (spelling (r_view self.now)) }
    {
        // a message that fits has a size
        size_with_header(&self.tag, size_of_reply_fields(&self.body)).unwrap()
    }
}

impl StatRef<'_> {
    /// Whether the stat has an entry (stat(5)). It has none if a text has a NUL, or if a text or
    /// the whole has more than 65,535 bytes.
    pub fn fits(&self) -> bool
        ensures { result ≡ true ↔ IsEntry (stat_in self.now) }
    {
        size_of_entry(self).is_some()
    }

    /// The length of the stat's entry in bytes, with the two of its size (stat(5)). The stat must
    /// fit (`fits`).
    pub fn entry_length(&self) -> usize
        requires { IsEntry (stat_in self.now) }
        ensures { result ≡ length (stat_entry (stat_in self.now)) }
    {
        // a stat that fits has a size
        size_of_entry(self).unwrap()
    }
}
