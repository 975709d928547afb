//! A run that was found, and awaits its attach.

use cs_names::{Text, UserName};
use std::marker::Model;

/// A run that was found for an attach, which is the connection's next step. (The run awaits the
/// attach; nothing waits for the run.) Contracts see the fid and the call of the attach, and the
/// run's place in the port. The user's name is here as the client's text, for the run, and as a
/// name (None if the text can't be one), so that the attach takes no memory.
#[derive(Debug, Drop)]
pub(crate) struct AwaitedRun {
    /// The fid that the attach gives to the run's root. It is free.
    pub(crate) fid: u32,
    /// The run's place in the port.
    pub(crate) run: u32,
    /// The user, as the client spells it.
    pub(crate) uname: Text,
    /// The user as a name; None if `uname` isn't one.
    pub(crate) user: Option<UserName>,
}

impl Model for AwaitedRun {
    ghost use Rattle.std.specs.Prelude.{◌≡◌};
    ghost use Rattle.cs_session.specs.Names.{user_in};
    ghost use Rattle.cs_session.specs.Sessions.{Awaited, awaited_code};

    ghost Value = { Awaited };

    ghost coded = { awaited_code };

    ghost view = { λ p. record { fid = p.fid; run = p.run; call = record { user = p.uname } } };

    ghost invariant = { λ p. p.user ≡ user_in p.uname };
}
