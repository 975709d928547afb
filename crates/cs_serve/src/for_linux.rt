//! A connection's stream, as Linux's own client needs it: messages are changed on their way. How
//! one message is changed is in cs_linux; which requests a rename takes, in `pending`.

use crate::pending::{PendingRequests, ReplyFate, reply_type_of, request_type_of};
use cs_linux::{reply_to_linux, request_of_linux};
use cs_names::limits::MESSAGE_BYTES;
use cs_wire::{
    Framer, RKind, RMessage, TKind, TMessage, decode_reply, decode_request, encode_reply,
    encode_request,
};
use std::alloc::Global;
use std::collections::VecDeque;
use std::io::{self, Read, Write};

/// A stream to a client of Linux. What is read from it are requests as the client means them; what
/// is written to it reaches the client with texts of errors that it knows. A message is passed on
/// once it is whole. If it can't be changed because memory ran out, it is passed on unchanged. If
/// the client renames a file over another, this stream asks further requests in its name, whose
/// replies it doesn't get.
#[derive(Drop)]
pub(crate) struct LinuxStream<RW> {
    /// The stream to the client.
    stream: RW,
    /// For messages that are decoded or changed.
    alloc: Global,
    /// What the client sent and isn't in `to_server` yet.
    requests: Framer,
    /// What is read next: requests for the server.
    to_server: VecDeque<u8>,
    /// What was written, from the first reply on that isn't whole.
    replies: Framer,
    /// The requests that the server was asked, as far as their replies matter.
    pending: PendingRequests,
}

/// The request that the client means by a Twstat. None for any other request, and if the Twstat
/// can't be decoded, also because memory runs out.
fn request_meant_by(alloc: Global, request: &[u8]) -> Option<TMessage<'_>> {
    if request_type_of(request) != Some(TKind::Wstat) {
        return None;
    }
    Some(request_of_linux(decode_request(alloc, request).ok()?))
}

/// The reply that the client gets for an Rerror. None for any other reply, and if the Rerror can't
/// be decoded, also because memory runs out.
fn error_for_linux(alloc: Global, reply: &[u8]) -> Option<RMessage> {
    if reply_type_of(reply) != Some(RKind::Error) {
        return None;
    }
    Some(reply_to_linux(decode_reply(alloc, reply).ok()?))
}

/// The bytes of the request that the client means by `request`. None if `request` itself goes to
/// the server: it isn't a Twstat, can't be decoded, is too long once it is changed, or memory runs
/// out.
fn request_bytes_meant(alloc: Global, request: &[u8]) -> Option<Vec<u8>> {
    let meant = request_meant_by(alloc, request)?;
    if !meant.fits() {
        return None;
    }
    let mut bytes = Vec::new(alloc);
    encode_request(&meant, &mut bytes).ok()?;
    Some(bytes)
}

/// The bytes of the reply that the client gets for `reply`. None if `reply` itself goes to the
/// client: it isn't an Rerror, can't be decoded, is too long once it is changed, or memory runs
/// out.
fn reply_bytes_for_linux(alloc: Global, reply: &[u8]) -> Option<Vec<u8>> {
    let error = error_for_linux(alloc, reply)?;
    if !error.fits() {
        return None;
    }
    let mut bytes = Vec::new(alloc);
    encode_reply(&error, &mut bytes).ok()?;
    Some(bytes)
}

/// Moves whole requests to `to_server`, as the client means them. It stops after a request whose
/// reply matters (see `pending`): that reply must come before the next request is passed on. If the
/// bytes after the whole requests can't begin a request, they are moved unchanged. The error is out
/// of memory, after which a request may be lost.
fn translate_requests(
    alloc: Global,
    requests: &mut Framer,
    pending: &mut PendingRequests,
    to_server: &mut VecDeque<u8>,
) -> io::Result<()> {
    while let Ok(Some(request)) = requests.next() {
        let matters = match request_bytes_meant(alloc, request) {
            Some(bytes) => {
                to_server.write_all(&bytes)?;
                pending.note_request(&bytes)
            }
            None => {
                to_server.write_all(request)?;
                pending.note_request(request)
            }
        };
        if matters {
            return Ok(());
        }
    }
    // the loop ended at None or at a fault, and `next` gives the same again
    if requests.next().is_err() {
        move_rest(alloc, requests, to_server)?;
    }
    Ok(())
}

/// Moves all bytes that are left to `to_server`, unchanged: they aren't a whole request. The error
/// is out of memory; `requests` then still has all of them, and a part may be moved.
fn move_rest(alloc: Global, requests: &mut Framer, to_server: &mut VecDeque<u8>) -> io::Result<()> {
    let (bytes, place) = requests.buffered();
    to_server.write_all(&bytes[place..])?;
    *requests = Framer::new(alloc);
    Ok(())
}

/// Appends a request that no client sent, a step of a rename, as a whole message. The error is
/// InvalidData if it is too long for one, else out of memory. After an error `write` fails, which
/// ends the connection.
fn append_request(
    alloc: Global,
    request: &TMessage<'_>,
    to_server: &mut VecDeque<u8>,
) -> io::Result<()> {
    if !request.fits() {
        return Err(io::Error::from(io::ErrorKind::InvalidData));
    }
    let mut bytes = Vec::new(alloc);
    encode_request(request, &mut bytes)?;
    to_server.write_all(&bytes)
}

/// Appends the reply with which a rename ends, as a whole message, with a text that the client
/// knows if it is an Rerror. The error is InvalidData if it is too long for a message, else out of
/// memory. After an error `write` fails, which ends the connection.
fn append_reply(reply: RMessage, to_client: &mut Vec<u8>) -> io::Result<()> {
    let reply = reply_to_linux(reply);
    if !reply.fits() {
        return Err(io::Error::from(io::ErrorKind::InvalidData));
    }
    encode_reply(&reply, to_client)?;
    Ok(())
}

/// Appends to `to_client`, for each whole reply of the server, the reply that the client gets. If a
/// rename isn't finished, its next request is appended to `to_server` instead, and the client gets
/// no reply yet. After an error the reply at which it came is lost. The server's replies are
/// well-formed, so `next` finds no fault.
fn translate_replies(
    alloc: Global,
    replies: &mut Framer,
    pending: &mut PendingRequests,
    to_server: &mut VecDeque<u8>,
    to_client: &mut Vec<u8>,
) -> io::Result<()> {
    while let Ok(Some(reply)) = replies.next() {
        match pending.note_reply(reply) {
            ReplyFate::Followed(request) => append_request(alloc, &request, to_server)?,
            ReplyFate::Replaced(reply) => append_reply(reply, to_client)?,
            ReplyFate::Passed => match reply_bytes_for_linux(alloc, reply) {
                Some(bytes) => to_client.extend_from_slice(&bytes)?,
                None => to_client.extend_from_slice(reply)?,
            },
        }
    }
    Ok(())
}

impl<RW> LinuxStream<RW> {
    /// A `LinuxStream` over `stream`. Nothing was read or written yet.
    pub(crate) fn new(alloc: Global, stream: RW) -> LinuxStream<RW> {
        LinuxStream {
            stream,
            alloc,
            requests: Framer::new(alloc),
            to_server: VecDeque::new(alloc),
            replies: Framer::new(alloc),
            pending: PendingRequests::new(alloc),
        }
    }

    /// Moves the requests that came to `to_server`, up to one whose reply matters. The error is out
    /// of memory; some of them may be moved then.
    fn move_requests(&mut self) -> io::Result<()> {
        translate_requests(
            self.alloc,
            &mut self.requests,
            &mut self.pending,
            &mut self.to_server,
        )
    }

    /// Takes bytes that the client sent. No bytes mean that it sends no more: what is left is
    /// passed on unchanged. The error is out of memory, after which some requests may be missing.
    fn take_bytes(&mut self, bytes: &[u8]) -> io::Result<()> {
        if bytes.is_empty() {
            return move_rest(self.alloc, &mut self.requests, &mut self.to_server);
        }
        self.requests.feed(bytes)?;
        self.move_requests()
    }
}

impl<RW: Read> Read for LinuxStream<RW> {
    /// Reads requests for the server. Waits for the client until there is a byte of them; 0 if it
    /// sends no more, or if `buf` is empty. After an error, of the stream or out of memory, some
    /// requests may be missing.
    fn read(&mut self, buf: &mut [u8]) -> io::Result<usize> {
        if buf.is_empty() {
            return Ok(0);
        }
        if self.to_server.is_empty() {
            self.move_requests()?;
        }
        // each read but the last gives a byte at least of a request that isn't whole
        for _ in 0..MESSAGE_BYTES {
            if !self.to_server.is_empty() {
                break;
            }
            let count = self.stream.read(buf)?;
            self.take_bytes(&buf[..count])?;
            if count == 0 {
                break;
            }
        }
        self.to_server.read(buf)
    }
}

impl<RW: Write> Write for LinuxStream<RW> {
    /// Takes all of `buf`, which is bytes of replies, and returns its length. For each reply that
    /// is whole now it writes the reply that the client gets, if any. After an error, of the stream
    /// or out of memory, some replies may be missing.
    fn write(&mut self, buf: &[u8]) -> io::Result<usize> {
        let mut to_client = Vec::new(self.alloc);
        self.replies.feed(buf)?;
        translate_replies(
            self.alloc,
            &mut self.replies,
            &mut self.pending,
            &mut self.to_server,
            &mut to_client,
        )?;
        self.stream.write_all(&to_client)?;
        Ok(buf.len())
    }

    /// Flushes the stream, whose error is returned. Bytes of a reply that isn't whole yet stay
    /// here.
    fn flush(&mut self) -> io::Result<()> {
        self.stream.flush()
    }
}
