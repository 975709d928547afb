//! A stream has the same messages however it is cut into pieces. The functions are laws: a call
//! does nothing, its contract is the law.

ghost use Rattle.std.specs.Prelude.{◌≡◌, ◌<◌, ℕ, List, [], ◌++◌, length};
ghost use Rattle.cs_wire.specs.Messages.{requests, replies, Message, Fits, spelling};
ghost use Rattle.cs_wire.specs.Framing.{Begins, Holds, HasNoWhole, IsWhole, IsUnfinished};
ghost use Rattle.cs_wire.specs.Framing.{IsUndersized, IsOversized};
ghost use Rattle.cs_names.specs.declared.limits.TheConstants.{MESSAGE_BYTES};
ghost use Rattle.cs_wire.specs.Cutting.{Call, Leaves, bytes_fed, messages_given};

/// However a stream is cut into pieces, and whenever `next` is called, a framer gives the same
/// messages, in the same order, and the rest of the bytes is left in it.
pub fn any_cutting()
    // The bytes that came are the messages given, in their order, and what is left.
    ensures joined { (calls : List Call) (left : List ℕ) → Leaves [] calls left
        → Begins (bytes_fed calls) (messages_given calls) left }
    // The messages given are the first of those of the joined pieces, and what is left holds the
    // others.
    ensures first { (calls : List Call) (left : List ℕ) (messages : List (List ℕ)) (rest : List ℕ)
        → Leaves [] calls left → Holds (bytes_fed calls) messages rest → (more : List (List ℕ))
        × ((messages ≡ messages_given calls ++ more) × Holds left more rest) }
    // If no whole message is left, any other cutting of the same bytes gave the same, and left the
    // same.
    ensures same { (calls others : List Call) (left rest : List ℕ) → Leaves [] calls left
        → Leaves [] others rest → bytes_fed calls ≡ bytes_fed others → HasNoWhole left
        → HasNoWhole rest → (messages_given calls ≡ messages_given others) × (left ≡ rest) }
    // If a framer has no message to give, none is left.
    ensures unfinished { (bytes : List ℕ) → IsUnfinished bytes → HasNoWhole bytes }
    ensures undersized { (bytes : List ℕ) → IsUndersized bytes → HasNoWhole bytes }
    ensures oversized { (bytes : List ℕ) → IsOversized bytes → HasNoWhole bytes }
    // What is unfinished is shorter than a message can be.
    ensures short { (bytes : List ℕ) → IsUnfinished bytes → length bytes < MESSAGE_BYTES }
{}

/// The bytes that `encode_request` and `encode_reply` append for a message that fits are one whole
/// message of a stream.
pub fn what_fits_is_whole()
    ensures requests { (m : Message requests) → Fits m → IsWhole (spelling m) }
    ensures replies { (m : Message replies) → Fits m → IsWhole (spelling m) }
{}
