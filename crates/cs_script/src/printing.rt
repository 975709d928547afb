//! The lines of a script's output, each made with its line feed at the end. The only error of a
//! `_text` function is out of memory.
ghost use Rattle.std.specs.Prelude.{◌≡◌, IfOk, string_bytes};
ghost use Rattle.cs_wire.specs.Messages.{Fits, r_view};
ghost use Rattle.cs_script.specs.Printed.{closed_text, refused_text, reloaded_text, reply_text};

use cs_users::UsersFault;
use cs_wire::{RMessage, encode_reply};
use std::alloc::{AllocError, Global};

/// The line of a reply: the connection's number, a space, and the reply's bytes in lower case
/// hexadecimal. The reply must fit a message. The error is out of memory.
pub(crate) fn reply_text(alloc: Global, conn: u32, reply: &RMessage) -> Result<String, AllocError>
    requires { Fits (r_view reply.now) }
    ensures { IfOk result (λ text. string_bytes text ≡ reply_text conn (r_view reply.now)) }
{
    let mut bytes = Vec::new(alloc);
    encode_reply(reply, &mut bytes)?;
    let digits = hex::encode(alloc, bytes.as_slice())?;
    format!(in alloc; "{conn} {digits}\n")
}

/// The line of a hang-up: the connection's number and `closed`. The error is out of memory.
pub(crate) fn closed_text(alloc: Global, conn: u32) -> Result<String, AllocError>
    ensures { IfOk result (λ text. string_bytes text ≡ closed_text conn) }
{
    format!(in alloc; "{conn} closed\n")
}

/// The line of a reload that was done: `reloaded`. The error is out of memory.
pub(crate) fn reloaded_text(alloc: Global) -> Result<String, AllocError>
    ensures { IfOk result (λ text. string_bytes text ≡ reloaded_text) }
{
    String::from_str(alloc, "reloaded\n")
}

/// The line of a reload that was refused: `reload refused: ` and the fault.
pub(crate) fn refused_text(alloc: Global, fault: UsersFault) -> Result<String, AllocError>
    ensures { IfOk result (λ text. string_bytes text ≡ refused_text fault) }
{
    format!(in alloc; "reload refused: {fault}\n")
}
