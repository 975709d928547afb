//! The types of messages, without their fields: one variant for each row of `table`.

ghost use Rattle.std.specs.Prelude.{◌≡◌};
ghost use Rattle.cs_wire.specs.Messages.{t_kind_of, r_kind_of};

use crate::table::{each_reply, each_request};

/// The type of a client's message.
#[derive(Clone, Copy, Debug, PartialEq, Eq)]
pub enum TKind {
    Version,
    Auth,
    Attach,
    Flush,
    Walk,
    Open,
    Create,
    Read,
    Write,
    Clunk,
    Remove,
    Stat,
    Wstat,
}

/// The type of a reply.
#[derive(Clone, Copy, Debug, PartialEq, Eq)]
pub enum RKind {
    Version,
    Auth,
    Attach,
    Error,
    Flush,
    Walk,
    Open,
    Create,
    Read,
    Write,
    Clunk,
    Remove,
    Stat,
    Wstat,
}

/// The type of that number, from the table; None if no row has it.
macro_rules! kind_of_number {
    (($number:ident $kinds:ident)
    $($name:ident $title:literal $code:literal { $($field:ident: $holds:ident),* })*) => {
        match $number {
            $($code => Some($kinds::$name),)*
            _ => None,
        }
    };
}

impl TKind {
    /// The type of a client's message with that number (intro(5)); None if no request has it.
    #[tactic(auto, unfolding(crate::specs::Messages::t_kind_of))]
    pub fn of_number(number: u8) -> Option<TKind>
        ensures { result ≡ t_kind_of number }
    {
        each_request!(kind_of_number (number TKind))
    }
}

impl RKind {
    /// The type of a reply with that number (intro(5)); None if no reply has it.
    #[tactic(auto, unfolding(crate::specs::Messages::r_kind_of))]
    pub fn of_number(number: u8) -> Option<RKind>
        ensures { result ≡ r_kind_of number }
    {
        each_reply!(kind_of_number (number RKind))
    }
}
