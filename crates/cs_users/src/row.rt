//! The fields of a line of the users file: lent from the file, and copied into a row.
ghost use Rattle.std.specs.Prelude.{◌≡◌, IfOk};
ghost use Rattle.std.specs.Option.{option_map};
ghost use Rattle.cs_names.specs.Legal.{IsUserName};
ghost use Rattle.cs_names.specs.Pieces.{pieces};
ghost use Rattle.cs_names.specs.PiecesLeft.{pieces_left};
ghost use Rattle.cs_users.specs.Fields.{row_of};
ghost use Rattle.cs_users.specs.Reading.{is_skipped, row_in, row_of_fields};

use cs_names::{NameFault, Pieces, UserName};
use std::alloc::{AllocError, Global};
use std::marker::Model;

/// The four fields of a line, borrowed from the file's bytes. Only their number was checked.
#[derive(Drop)]
pub(crate) struct Fields<'a> {
    /// Any text; it has no effect.
    id: &'a [u8],
    pub(crate) name: &'a [u8],
    leader: &'a [u8],
    members: &'a [u8],
}

/// A copy of a line's fields, whose name is legal. The members stay one text, with commas between
/// them.
#[derive(Debug, Drop)]
pub(crate) struct Row {
    id: Vec<u8>,
    name: UserName,
    leader: Vec<u8>,
    members: Vec<u8>,
}

impl Model for Row {
    ghost use Rattle.cs_names.specs.Pieces.{pieces};
    ghost use Rattle.cs_users.specs.Rows.{Row};

    ghost Value = { Row };

    ghost view = { λ row. record {
      id = row.id.items;
      name = row.name;
      leader = row.leader.items;
      members =
          pieces 44 row.members.items;
    } };
}

/// Whether the line is empty or begins with `#`.
pub(crate) fn is_skipped(line: &[u8]) -> bool
    ensures { result ≡ is_skipped line.now }
{
    line.is_empty() || line[0] == b'#'
}

/// The fields of a line, even of one that is skipped; None unless there are exactly four.
fn split_fields(line: &[u8]) -> Option<Fields<'_>>
    ensures { option_map row_of result ≡ row_of_fields (pieces 58 line.now) }
{
    let mut pieces = Pieces::of(line, b':');
    let fields = Fields {
        id: pieces.next()?,
        name: pieces.next()?,
        leader: pieces.next()?,
        members: pieces.next()?,
    };
    if pieces.next().is_some() {
        return None;
    }
    Some(fields)
}

/// The fields of a line; None if it is skipped or hasn't exactly four.
pub(crate) fn fields_of(line: &[u8]) -> Option<Fields<'_>>
    ensures { option_map row_of result ≡ row_in line.now }
{
    if is_skipped(line) {
        return None;
    }
    split_fields(line)
}

/// Copies a name that is legal, so the only error is that memory runs out.
fn copy_name(alloc: Global, name: &[u8]) -> Result<UserName, AllocError>
    requires { IsUserName name.now }
    ensures { IfOk result (λ copy. copy ≡ name.now) }
{
    match UserName::read(alloc, name) {
        Ok(name) => Ok(name),
        Err(NameFault::Memory) => Err(AllocError),
        // the name is legal
        Err(_) => unreachable!(),
    }
}

impl Row {
    /// Copies the fields, whose name is legal, into a row. The only error is that memory runs out.
    pub(crate) fn copy_of(alloc: Global, fields: &Fields) -> Result<Row, AllocError>
        requires { IsUserName fields.now.name.now }
        ensures { IfOk result (λ row. row ≡ row_of fields.now) }
    {
        Ok(Row {
            id: Vec::from_slice(alloc, fields.id)?,
            name: copy_name(alloc, fields.name)?,
            leader: Vec::from_slice(alloc, fields.leader)?,
            members: Vec::from_slice(alloc, fields.members)?,
        })
    }

    /// A copy of the row. The only error is that memory runs out.
    pub(crate) fn try_clone(&self) -> Result<Row, AllocError>
        ensures { IfOk result (λ row. row ≡ self.now) }
    {
        Ok(Row {
            id: self.id.clone()?,
            name: self.name.try_clone()?,
            leader: self.leader.clone()?,
            members: self.members.clone()?,
        })
    }

    /// The name of the user or group, which is legal.
    pub(crate) fn name(&self) -> &[u8]
        ensures value { result.now ≡ self.now.name }
        ensures legal { IsUserName self.now.name }
    {
        self.name.as_bytes()
    }

    /// The leader's name; empty if the line has none.
    pub(crate) fn leader(&self) -> &[u8]
        ensures { result.now ≡ self.now.leader }
    {
        self.leader.as_slice()
    }

    /// The names of the members that the line lists, in its order. One may be empty or unknown, or
    /// come twice.
    pub(crate) fn members(&self) -> Pieces<'_>
        ensures { pieces_left result ≡ self.now.members }
    {
        Pieces::of(self.members.as_slice(), b',')
    }
}
