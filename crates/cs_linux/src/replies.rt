//! The replies that Linux's client gets, which knows an error by its text.
ghost use Rattle.std.specs.Prelude.{◌≡◌, ◌≢◌, ℕ, List};
ghost use Rattle.cs_wire.specs.Messages.{r_view};
ghost use Rattle.cs_linux.specs.Messages.{IsLinuxText, error_message};

use crate::errno::Errno;
use crate::rules::rule_of;
use cs_wire::{RBody, RMessage};
use std::borrow::CowStr;

/// The text of an Rerror that reports that memory ran out: that of `memory_text` in cs_session and
/// of `reply_of` in cs_serve. Change all three.
const OUT_OF_MEMORY: &str = "out of memory";

/// The text that Linux's client gets in place of this one: that of the error for the rule with this
/// text, or of ENOMEM if it is OUT_OF_MEMORY. Any other text is EIO's.
fn linux_text(text: &str) -> &'static str
    ensures { IsLinuxText text.now result.now }
{
    let errno = match rule_of(text) {
        Some(rule) => Errno::of(rule),
        None if text == OUT_OF_MEMORY => Errno::NoMemory,
        None => Errno::InputOutput,
    };
    errno.text()
}

/// The reply that Linux's client gets: for an Rerror one with a text that the client knows
/// (error(5)), of at most 25 bytes, so it fits in every session; any other reply is unchanged. It
/// allocates nothing.
pub fn reply_to_linux(reply: RMessage) -> RMessage
    ensures error { (tag : ℕ) (text : List ℕ) → r_view reply ≡ error_message tag text
        → (new : List ℕ) × IsLinuxText text new × (r_view result ≡ error_message tag new) }
    ensures other { ((tag : ℕ) (text : List ℕ) → r_view reply ≢ error_message tag text)
        → result ≡ reply }
{
    let RMessage { tag, body } = reply;
    let body = match body {
        RBody::Error { ename } => RBody::Error {
            ename: CowStr::Borrowed(linux_text(ename.as_str())),
        },
        other => other,
    };
    RMessage { tag, body }
}
