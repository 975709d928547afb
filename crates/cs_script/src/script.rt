//! The lines of a script: what connections send and when, and the users files that are loaded. If a
//! function here gives an Option in a Result, its only error is out of memory.
ghost use Rattle.std.specs.Prelude.{◌≡◌, ◌≢◌, ◌<◌, ◌≤◌, [], ◌∷◌, ◌++◌, Err, IfErr, IfOk, None, Ok};
ghost use Rattle.std.specs.Prelude.{OnOk, Some, length, option_map, vec_items};
ghost use Rattle.std.specs.Io.BufRead.{strip_last};
ghost use Rattle.cs_names.specs.declared.limits.TheConstants.{CONNECTIONS};
ghost use Rattle.cs_inputs.specs.declared.fault.ProgramFault.TheVariants.{Memory, Script};
ghost use Rattle.cs_script.specs.Scripts.{act_from, action_in, bytes_in, conn_in, is_decimal};
ghost use Rattle.cs_script.specs.Scripts.{line_at, line_in, line_of, number_in, script_in, sent_in};
ghost use Rattle.cs_inputs.specs.Written.{IsOfNoStream};

use cs_inputs::ProgramFault;
use cs_names::limits::{CONNECTIONS, MESSAGE_BYTES, SCRIPT_LINES};
use cs_names::{Pieces, is_all_digits};
use std::alloc::{AllocError, Global};
use std::marker::Model;

/// The number of a connection, from 0 to 63.
#[derive(Debug, Drop)]
pub struct ScriptConn {
    /// Less than CONNECTIONS, 64.
    number: u32,
}

impl Model for ScriptConn {
    ghost use Rattle.std.specs.Prelude.{◌<◌, ℕ};
    ghost use Rattle.cs_names.specs.declared.limits.TheConstants.{CONNECTIONS};

    ghost Value = { ℕ };

    ghost view = { λ conn. conn.number };

    ghost invariant = { λ conn. conn.number < CONNECTIONS };
}

impl ScriptConn {
    /// The number: less than CONNECTIONS.
    pub fn number(&self) -> u32
        ensures value { result ≡ self.now }
        ensures few { result < CONNECTIONS }
    {
        self.number
    }
}

/// A message, of 7 bytes at least. Contracts see its bytes.
#[derive(Debug, Drop)]
pub struct ScriptMessage {
    /// As they are sent; their first four need not spell their number.
    bytes: Vec<u8>,
}

impl Model for ScriptMessage {
    ghost use Rattle.std.specs.Prelude.{◌≤◌, length, List, ℕ};

    ghost Value = { List ℕ };

    ghost view = { λ message. message.bytes.items };

    ghost invariant = { λ message. 7 ≤ length message.bytes.items };
}

impl ScriptMessage {
    /// The bytes of the message.
    pub fn bytes(&self) -> &[u8]
        ensures value { result.now ≡ self.now }
        ensures whole { 7 ≤ length result.now }
    {
        self.bytes.as_slice()
    }
}

/// A users file, of one byte at least. Contracts see its bytes.
#[derive(Debug, Drop)]
pub struct ScriptUsers {
    /// As a file has them; they need not be a users file.
    bytes: Vec<u8>,
}

impl Model for ScriptUsers {
    ghost use Rattle.std.specs.Prelude.{List, ℕ};

    ghost Value = { List ℕ };

    ghost view = { λ users. users.bytes.items };
}

impl ScriptUsers {
    /// The bytes of the file.
    pub fn bytes(&self) -> &[u8]
        ensures { result.now ≡ self.now }
    {
        self.bytes.as_slice()
    }
}

/// What is done on a connection: a message is sent, or the connection ends.
#[derive(Debug, Drop)]
pub enum Action {
    /// A message is sent.
    Send(ScriptMessage),
    /// The connection ends.
    HangUp,
}

/// An action on a connection at a moment, in seconds since 1970.
#[derive(Debug, Drop)]
pub struct ScriptAct {
    /// Whose action it is.
    pub conn: ScriptConn,
    /// In seconds since 1970. A later line may have an earlier moment.
    pub moment: u32,
    /// What it does.
    pub action: Action,
}

/// A line of a script.
#[derive(Debug, Drop)]
pub enum ScriptLine {
    /// A connection does something.
    Act(ScriptAct),
    /// The runs that are made later have the users of that file, if it is a users file.
    Reload(ScriptUsers),
}

/// The number of bytes of size, type and tag together (intro(5)): no message has fewer. cs_wire has
/// the same constant: change both.
const HEADER_BYTES: usize = 7;

/// Whether the text is one digit or more, and nothing else.
fn is_decimal(text: &[u8]) -> bool
    ensures { result ≡ is_decimal text.now }
{
    !text.is_empty() && is_all_digits(text)
}

/// The number that decimal digits spell; None if there is another byte or no digit, or if the
/// number needs more than 32 bits. Zeros may lead.
fn read_number(text: &[u8]) -> Option<u32>
    ensures { result ≡ number_in text.now }
{
    if !is_decimal(text) {
        return None;
    }
    // digits are always UTF-8, so the number is refused only if it is too large
    match std::str::from_utf8(text) {
        Ok(text) => text.parse::<u32>().ok(),
        Err(_) => None,
    }
}

/// The number of a connection that decimal digits spell; None unless it is less than CONNECTIONS.
fn read_conn(text: &[u8]) -> Option<ScriptConn>
    ensures { result ≡ conn_in text.now }
{
    let number = read_number(text)?;
    if number >= CONNECTIONS {
        return None;
    }
    Some(ScriptConn { number })
}

/// The bytes that hexadecimal digits spell, two digits of either case for each byte; None if the
/// text isn't such digits, or spells fewer than `least` bytes.
fn bytes_in_hex(alloc: Global, least: usize, digits: &[u8]) -> Result<Option<Vec<u8>>, AllocError>
    ensures { IfOk result (λ bytes. option_map vec_items bytes ≡ bytes_in least digits.now) }
{
    match hex::decode(alloc, digits) {
        Ok(bytes) => {
            if bytes.len() < least {
                return Ok(None);
            }
            Ok(Some(bytes))
        }
        Err(hex::FromHexError::OutOfMemory) => Err(AllocError),
        // the other errors are of the digits
        Err(_) => Ok(None),
    }
}

/// The message that hexadecimal digits spell; None unless they spell at least 7 bytes and at most
/// MESSAGE_BYTES. Whether the bytes are a message of the protocol is tested when the line runs.
fn read_message(alloc: Global, digits: &[u8]) -> Result<Option<ScriptMessage>, AllocError>
    ensures { IfOk result (λ message. message ≡ sent_in digits.now) }
{
    if digits.len() > 2 * MESSAGE_BYTES as usize {
        return Ok(None);
    }
    match bytes_in_hex(alloc, HEADER_BYTES, digits)? {
        Some(bytes) => Ok(Some(ScriptMessage { bytes })),
        None => Ok(None),
    }
}

/// The users file that hexadecimal digits spell; None unless they spell at least one byte. What is
/// in the file is read only when the line runs.
fn read_users(alloc: Global, digits: &[u8]) -> Result<Option<ScriptUsers>, AllocError>
    ensures { IfOk result (λ users. users ≡ bytes_in 1 digits.now) }
{
    match bytes_in_hex(alloc, 1, digits)? {
        Some(bytes) => Ok(Some(ScriptUsers { bytes })),
        None => Ok(None),
    }
}

/// The action that a word spells: `hangup`, or a message in hexadecimal; None if it is neither.
fn read_action(alloc: Global, word: &[u8]) -> Result<Option<Action>, AllocError>
    ensures { IfOk result (λ action. action ≡ action_in word.now) }
{
    if word == b"hangup".as_slice() {
        return Ok(Some(Action::HangUp));
    }
    match read_message(alloc, word)? {
        Some(message) => Ok(Some(Action::Send(message))),
        None => Ok(None),
    }
}

/// The line that three words spell: a connection's number, a moment in seconds, and an action; None
/// if a word spells something else.
fn read_act(
    alloc: Global,
    first: &[u8],
    second: &[u8],
    third: &[u8],
) -> Result<Option<ScriptLine>, AllocError>
    ensures { IfOk result (λ line. line
        ≡ act_from (conn_in first.now) (number_in second.now) (action_in third.now)) }
{
    let (Some(conn), Some(moment)) = (read_conn(first), read_number(second)) else {
        return Ok(None);
    };
    match read_action(alloc, third)? {
        Some(action) => Ok(Some(ScriptLine::Act(ScriptAct {
            conn,
            moment,
            action,
        }))),
        None => Ok(None),
    }
}

/// The line that two words spell: `reload`, and a users file in hexadecimal; None if a word is
/// something else.
fn read_reload(alloc: Global, first: &[u8], second: &[u8]) -> Result<Option<ScriptLine>, AllocError>
    ensures { IfOk result (λ line. line ≡ line_of (first.now ∷ second.now ∷ [])) }
{
    if first != b"reload".as_slice() {
        return Ok(None);
    }
    match read_users(alloc, second)? {
        Some(users) => Ok(Some(ScriptLine::Reload(users))),
        None => Ok(None),
    }
}

/// The line that the text spells, with one space between its words: three words for a connection,
/// or two for a reload; None if it spells neither, as the empty text.
fn read_line(alloc: Global, text: &[u8]) -> Result<Option<ScriptLine>, AllocError>
    ensures { IfOk result (λ line. line ≡ line_in text.now) }
{
    let mut words = Pieces::of(text, b' ');
    let Some(first) = words.next() else {
        return Ok(None);
    };
    let Some(second) = words.next() else {
        return Ok(None);
    };
    let Some(third) = words.next() else {
        return read_reload(alloc, first, second);
    };
    match words.next() {
        Some(_) => Ok(None),
        None => read_act(alloc, first, second, third),
    }
}

/// The bytes without the line feed at their end; all of them if they don't end with one.
fn without_last_feed(bytes: &[u8]) -> &[u8]
    ensures value { result.now ≡ strip_last 10 bytes.now }
    ensures shorter { length result.now ≤ length bytes.now }
{
    match bytes.split_last() {
        Some((b'\n', lines)) => lines,
        _ => bytes,
    }
}

/// Appends the line of that number, which the text spells. The error is Script if the number is
/// past SCRIPT_LINES or the text spells no line, or Memory. After an error the lines are as they
/// were.
fn push_line(
    alloc: Global,
    lines: &mut Vec<ScriptLine>,
    number: usize,
    text: &[u8],
) -> Result<(), ProgramFault>
    ensures kept { OnOk result (option_map (λ line. lines.old.items ++ line ∷ [])
        (line_at number text.now) ≡ Some lines.new.items) }
    ensures fault { IfErr result (λ fault. fault ≢ Memory
        → (fault ≡ Script number) × (line_at number text.now ≡ None)) }
    ensures no_stream { IfErr result IsOfNoStream }
{
    if number > SCRIPT_LINES {
        return Err(ProgramFault::Script(number));
    }
    let Ok(read) = read_line(alloc, text) else {
        return Err(ProgramFault::Memory);
    };
    let Some(line) = read else {
        return Err(ProgramFault::Script(number));
    };
    if lines.push(line).is_err() {
        return Err(ProgramFault::Memory);
    }
    Ok(())
}

/// The lines of a script; an empty script has none. A line feed at the end of the script doesn't
/// begin a line. The error is Script at the first line that spells none, as an empty one, or is
/// past SCRIPT_LINES; or Memory if an allocation fails before such a line is reached.
pub fn read_script(alloc: Global, bytes: &[u8]) -> Result<Vec<ScriptLine>, ProgramFault>
    ensures read { IfOk result (λ lines. script_in bytes.now ≡ Ok lines.items) }
    ensures fault { IfErr result (λ fault. fault ≢ Memory → script_in bytes.now ≡ Err fault) }
    ensures no_stream { IfErr result IsOfNoStream }
{
    let mut lines = Vec::new(alloc);
    if bytes.is_empty() {
        return Ok(lines);
    }
    let mut before = 0;
    for text in Pieces::of(without_last_feed(bytes), b'\n') {
        if let Err(fault) = push_line(alloc, &mut lines, before + 1, text) {
            return Err(fault);
        }
        before += 1;
    }
    Ok(lines)
}
