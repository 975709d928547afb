//! Decodes hexadecimal digits in their own memory, so that it takes no other.
ghost use Rattle.std.specs.Prelude.{◌≡◌, IfErr};
ghost use Rattle.std.specs.Result.{result_ok};
ghost use Rattle.hex.specs.Hex.{decode_of};
ghost use Rattle.cs_trace_lines.specs.Faults.{IsRead};
ghost use Rattle.cs_trace_lines.specs.declared.fault.LineFault.TheVariants.{Syntax};

use crate::fault::LineFault;

/// How many bytes are decoded at a time. A larger buffer makes short texts slower to decode, and
/// long ones no faster.
const PART: usize = 512;

/// The bytes that hexadecimal digits spell, in upper or lower case; an empty text spells none. Any
/// other text, such as an odd number of digits, is Syntax. The bytes are in the memory of the
/// digits; Memory is never the fault.
pub(crate) fn decode(mut digits: Vec<u8>) -> Result<Vec<u8>, LineFault>
    ensures read { IsRead (λ bytes. bytes.items) (result_ok (decode_of digits.items)) result }
    ensures fault { IfErr result (λ fault. fault ≡ Syntax) }
{
    let len = digits.len();
    let mut buffer = [0; PART];
    let mut decoded = 0;
    while 2 * decoded < len {
        let rest = &digits[2 * decoded..];
        let part = &rest[..rest.len().min(2 * PART)];
        let room = &mut buffer[..part.len() / 2];
        if hex::decode_to_slice(part, room).is_err() {
            return Err(LineFault::Syntax);
        }
        // The bytes take the place of digits that are decoded already.
        digits[decoded..decoded + room.len()].copy_from_slice(room);
        decoded += room.len();
    }
    digits.truncate(decoded);
    digits.shrink_to_fit();
    Ok(digits)
}
