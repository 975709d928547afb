//! The bytes of a message that are still to be read. Each `read_` method takes one field from the
//! front, and allocates nothing: texts and data are lent from the bytes.

ghost use Rattle.std.specs.Prelude.{◌≡◌, ◌≤◌, ◌==◌, map, IfSome, IfNone, true, false};
ghost use Rattle.std.specs.Int.{w8, w16, w32, w64};
ghost use Rattle.std.specs.List.{list_any};
ghost use Rattle.cs_wire.specs.Few.{items_of};
ghost use Rattle.cs_wire.specs.Fields.{is_text, Text};
ghost use Rattle.cs_wire.specs.Messages.{qid_of, qid_shape, stat_in, stat_shape, texts_in};
ghost use Rattle.cs_wire.specs.Reading.{end_at, front_at, number_at, raw_at, times_at, several_at};
ghost use Rattle.cs_wire.specs.Reading.{sized_in, entry_in, boxed_at, field_at};
ghost use Rattle.cs_wire.specs.Answers.{IsSeenAs, IsFrontSeenAs};

use crate::fault::WireFault;
use crate::few::Few;
use crate::message::Qid;
use crate::stat::StatRef;
use cs_names::limits::WALK_NAMES;

/// The bytes that no field has taken so far. If a field is at fault, a part of it may be taken
/// already: then the whole message is refused, and nothing more is read.
#[derive(Drop)]
pub(crate) struct Cursor<'a> {
    pub(crate) rest: &'a [u8],
}

/// Whether at least one of the bytes is NUL; false if there are none. (`contains_nul` of cs_names
/// has the same body.)
pub(crate) fn has_nul(bytes: &[u8]) -> bool
    ensures { result ≡ list_any (λ b. b == 0) bytes.now }
{
    bytes.iter().any(|b| *b == 0)
}

/// The bytes as a text; None if they aren't UTF-8 or one of them is NUL. (`as_text` of cs_names is
/// the same, but this contract has the `is_text` of this crate.)
fn text_in(bytes: &[u8]) -> Option<&str>
    ensures some { IfSome result (λ s. (s.now ≡ bytes.now) × (is_text bytes.now ≡ true)) }
    ensures none { IfNone result (is_text bytes.now ≡ false) }
{
    match str::from_utf8(bytes) {
        Ok(text) => { if has_nul(bytes) { None } else { Some(text) } }
        Err(_) => None,
    }
}

/// Reads an entry that fills the bytes: its size in two bytes, and the fields of a stat. The fault
/// is Short if there are no two bytes, and SizeLies if the size isn't the number of bytes after it.
/// Else it is that of the first faulty field (Short or BadText), else Trailing if bytes are left
/// after the fields.
#[tactic(auto, unfolding(crate::specs::Reading::sized_in))]
fn read_sized_stat(bytes: &[u8]) -> Result<StatRef, WireFault>
    ensures { IsSeenAs stat_in result (sized_in (field_at stat_shape) bytes.now) }
{
    let mut cursor = Cursor { rest: bytes };
    let size = cursor.read_u16()?;
    if size as usize != cursor.rest.len() {
        return Err(WireFault::SizeLies);
    }
    let stat = cursor.read_stat_fields()?;
    if !cursor.rest.is_empty() {
        return Err(WireFault::Trailing);
    }
    Ok(stat)
}

/// Reads an entry that fills the bytes, as `read_sized_stat` does. But Short and Trailing become
/// SizeLies: the message said how long the entry is, so if it is too short or too long for its
/// fields, a size is wrong.
fn read_entry(bytes: &[u8]) -> Result<StatRef, WireFault>
    ensures { IsSeenAs stat_in result (entry_in (field_at stat_shape) bytes.now) }
{
    match read_sized_stat(bytes) {
        Err(WireFault::Short | WireFault::Trailing) => Err(WireFault::SizeLies),
        answer => answer,
    }
}

impl<'a> Cursor<'a> {
    /// Takes the next `count` bytes. If there are fewer, the fault is Short, and nothing is taken.
    pub(crate) fn read_bytes(&mut self, count: usize) -> Result<&'a [u8], WireFault>
        ensures { IsFrontSeenAs (λ x. x.now) result self.new.rest.now
            (front_at count self.old.rest.now) }
    {
        if self.rest.len() < count {
            return Err(WireFault::Short);
        }
        let (front, rest) = self.rest.split_at(count);
        self.rest = rest;
        Ok(front)
    }

    /// Checks that no byte is left, else the fault is Trailing.
    pub(crate) fn expect_end(&self) -> Result<(), WireFault>
        ensures { IsSeenAs (λ _. tt) result (end_at self.now.rest.now) }
    {
        if !self.rest.is_empty() {
            return Err(WireFault::Trailing);
        }
        Ok(())
    }

    /// Takes the next N bytes as an array. If there are fewer, the fault is Short, and nothing is
    /// taken.
    fn read_array<const N: usize>(&mut self) -> Result<[u8; N], WireFault>
        ensures { IsFrontSeenAs (λ x. x) result self.new.rest.now (front_at N self.old.rest.now) }
    {
        let Some((front, rest)) = self.rest.split_first_chunk::<N>() else {
            return Err(WireFault::Short);
        };
        self.rest = rest;
        Ok(*front)
    }

    /// Reads a number of one byte. After an error (Short) nothing is taken.
    pub(crate) fn read_u8(&mut self) -> Result<u8, WireFault>
        ensures { IsFrontSeenAs (λ x. x) result self.new.rest.now (number_at w8 self.old.rest.now) }
    {
        Ok(u8::from_le_bytes(self.read_array()?))
    }

    /// Reads a number of two bytes, the low one first. After an error (Short) nothing is taken.
    pub(crate) fn read_u16(&mut self) -> Result<u16, WireFault>
        ensures { IsFrontSeenAs (λ x. x) result self.new.rest.now
            (number_at w16 self.old.rest.now) }
    {
        Ok(u16::from_le_bytes(self.read_array()?))
    }

    /// Reads a number of four bytes, the low one first. After an error (Short) nothing is taken.
    pub(crate) fn read_u32(&mut self) -> Result<u32, WireFault>
        ensures { IsFrontSeenAs (λ x. x) result self.new.rest.now
            (number_at w32 self.old.rest.now) }
    {
        Ok(u32::from_le_bytes(self.read_array()?))
    }

    /// Reads a number of eight bytes, the low one first. After an error (Short) nothing is taken.
    pub(crate) fn read_u64(&mut self) -> Result<u64, WireFault>
        ensures { IsFrontSeenAs (λ x. x) result self.new.rest.now
            (number_at w64 self.old.rest.now) }
    {
        Ok(u64::from_le_bytes(self.read_array()?))
    }

    /// Reads a text: its length in two bytes, and that many bytes. The fault is Short if there are
    /// fewer, and BadText if they aren't UTF-8 or have a NUL. An error may leave a part of the text
    /// taken.
    #[tactic(auto, unfolding(crate::specs::Reading::field_at, crate::specs::Reading::text_at))]
    pub(crate) fn read_text(&mut self) -> Result<&'a str, WireFault>
        ensures { IsFrontSeenAs (λ x. x.now) result self.new.rest.now
            (field_at Text self.old.rest.now) }
    {
        let count = self.read_u16()?;
        let front = self.read_bytes(count as usize)?;
        match text_in(front) {
            None => Err(WireFault::BadText),
            Some(text) => Ok(text),
        }
    }

    /// Reads the 13 bytes of a qid: kind, version and path. An error (Short) may leave a part of it
    /// taken.
    #[tactic(auto, unfolding(crate::specs::Reading::field_at))]
    pub(crate) fn read_qid(&mut self) -> Result<Qid, WireFault>
        ensures { IsFrontSeenAs qid_of result self.new.rest.now
            (field_at qid_shape self.old.rest.now) }
    {
        Ok(Qid {
            kind: self.read_u8()?,
            vers: self.read_u32()?,
            path: self.read_u64()?,
        })
    }

    /// Reads data: a count in four bytes, and that many bytes, which are lent. An error (Short) may
    /// leave the count taken.
    #[tactic(auto, unfolding(crate::specs::Reading::raw_at))]
    pub(crate) fn read_data(&mut self) -> Result<&'a [u8], WireFault>
        ensures { IsFrontSeenAs (λ x. x.now) result self.new.rest.now (raw_at self.old.rest.now) }
    {
        let count = self.read_u32()?;
        self.read_bytes(count as usize)
    }

    /// Reads `count` names of a walk, without a count before them. The caller has checked that they
    /// are at most 16. An error (Short or BadText) leaves the names before the faulty one taken,
    /// and maybe a part of it.
    fn read_each_name(&mut self, count: u16) -> Result<Few<&'a str>, WireFault>
        requires { count ≤ WALK_NAMES }
        ensures { IsFrontSeenAs (λ names. texts_in (items_of names)) result self.new.rest.now
            (times_at (field_at Text) count self.old.rest.now) }
    {
        let mut names = Few::new("");
        for _ in 0..count {
            let name = self.read_text()?;
            names.push(name);
        }
        Ok(names)
    }

    /// Reads `count` qids, without a count before them. The caller has checked that they are at
    /// most 16. An error (Short) leaves the qids before the faulty one taken, and maybe a part of
    /// it.
    fn read_each_qid(&mut self, count: u16) -> Result<Few<Qid>, WireFault>
        requires { count ≤ WALK_NAMES }
        ensures { IsFrontSeenAs (λ qids. map qid_of (items_of qids)) result self.new.rest.now
            (times_at (field_at qid_shape) count self.old.rest.now) }
    {
        let blank = Qid {
            kind: 0,
            vers: 0,
            path: 0,
        };
        let mut qids = Few::new(blank);
        for _ in 0..count {
            let qid = self.read_qid()?;
            qids.push(qid);
        }
        Ok(qids)
    }

    /// Reads the names of a walk, after their count in two bytes. The fault is Short if the count
    /// isn't there, TooManyNames if it is above 16, else that of the first faulty name (Short or
    /// BadText). An error may leave the count and some names taken.
    #[tactic(auto, unfolding(crate::specs::Reading::several_at))]
    pub(crate) fn read_names(&mut self) -> Result<Few<&'a str>, WireFault>
        ensures { IsFrontSeenAs (λ names. texts_in (items_of names)) result self.new.rest.now
            (several_at (field_at Text) self.old.rest.now) }
    {
        let count = self.read_u16()?;
        if count > WALK_NAMES {
            return Err(WireFault::TooManyNames);
        }
        self.read_each_name(count)
    }

    /// Reads the qids of a walk, after their count in two bytes. The fault is TooManyNames if the
    /// count is above 16, else Short. An error may leave the count and some qids taken.
    #[tactic(auto, unfolding(crate::specs::Reading::several_at))]
    pub(crate) fn read_qids(&mut self) -> Result<Few<Qid>, WireFault>
        ensures { IsFrontSeenAs (λ qids. map qid_of (items_of qids)) result self.new.rest.now
            (several_at (field_at qid_shape) self.old.rest.now) }
    {
        let count = self.read_u16()?;
        if count > WALK_NAMES {
            return Err(WireFault::TooManyNames);
        }
        self.read_each_qid(count)
    }

    /// Reads the fields of a stat, without a size before them (stat(5)). An error (Short or
    /// BadText) leaves the fields before the faulty one taken, and maybe a part of it.
    #[tactic(auto, unfolding(crate::specs::Reading::field_at))]
    fn read_stat_fields(&mut self) -> Result<StatRef<'a>, WireFault>
        ensures { IsFrontSeenAs stat_in result self.new.rest.now
            (field_at stat_shape self.old.rest.now) }
    {
        Ok(StatRef {
            kind: self.read_u16()?,
            dev: self.read_u32()?,
            qid: self.read_qid()?,
            mode: self.read_u32()?,
            atime: self.read_u32()?,
            mtime: self.read_u32()?,
            length: self.read_u64()?,
            name: self.read_text()?,
            uid: self.read_text()?,
            gid: self.read_text()?,
            muid: self.read_text()?,
        })
    }

    /// Reads a stat: its length in two bytes, and an entry of that length. The fault is Short if
    /// there are fewer bytes, else that of `read_entry`. An error may leave a part of it taken.
    #[tactic(auto, unfolding(crate::specs::Reading::boxed_at))]
    pub(crate) fn read_stat(&mut self) -> Result<StatRef<'a>, WireFault>
        ensures { IsFrontSeenAs stat_in result self.new.rest.now
            (boxed_at (field_at stat_shape) self.old.rest.now) }
    {
        let count = self.read_u16()?;
        let front = self.read_bytes(count as usize)?;
        read_entry(front)
    }
}
