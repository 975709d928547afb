//! One end of a connection, which takes whole messages from what comes.

use cs_wire::Framer;
use std::alloc::Global;
use std::io::{self, Read, Write};
use std::net::TcpStream;

/// The most bytes of a message.
pub const MESSAGE: usize = 65_536;

/// A stream, and what came of it.
#[derive(Drop)]
pub struct Link {
    pub stream: TcpStream,
    pub framer: Framer,
}

impl Link {
    /// A link that writes at once. Its buffer never grows.
    pub fn new(alloc: Global, stream: TcpStream) -> io::Result<Link> {
        stream.set_nodelay(true)?;
        let mut framer = Framer::new(alloc);
        framer.reserve(MESSAGE)?;
        Ok(Link { stream, framer })
    }

    /// Reads what has come, by one read: whether anything did, or the stream is at its end.
    pub fn read(&mut self) -> io::Result<bool> {
        self.framer.make_room();
        let count = self.stream.read(self.framer.room())?;
        self.framer.advance(count);
        Ok(count > 0)
    }

    /// The type of the next reply, if it is there.
    fn reply(&mut self) -> io::Result<Option<u8>> {
        match self.framer.next() {
            Ok(Some(reply)) => Ok(reply.get(4).copied()),
            Ok(None) => Ok(None),
            Err(_) => Err(io::Error::from(io::ErrorKind::InvalidData)),
        }
    }

    /// Sends a message, and waits for its reply, which must be no refusal.
    pub fn ask(&mut self, message: &[u8]) -> io::Result<()> {
        self.stream.write_all(message)?;
        let wanted = message.get(4).map(|kind| kind.wrapping_add(1));
        for _ in 0..MESSAGE {
            if !self.read()? {
                return Err(io::Error::from(io::ErrorKind::UnexpectedEof));
            }
            let reply = self.reply()?;
            if reply.is_some() && reply != wanted {
                return Err(io::Error::from(io::ErrorKind::PermissionDenied));
            }
            if reply.is_some() {
                break;
            }
        }
        Ok(())
    }
}
