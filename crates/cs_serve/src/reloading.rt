//! The users file is read again while connections are served. Runs that exist keep the users that
//! they were made with.
ghost use Rattle.std.specs.Prelude.{◌≡◌, ◌≢◌, Err, List, None, Ok};
ghost use Rattle.cs_users.specs.Reading.{users_in};
ghost use Rattle.cs_users.specs.Rows.{Row};
ghost use Rattle.cs_inputs.specs.Returns.{IsFirstReturn};
ghost use Rattle.cs_serve.specs.Reloads.{Loads};

use crate::log::Log;
use cs_inputs::{ReturnNote, first_return};
use cs_shared_runs::{ServerBrand, SharedRegistry};
use cs_users::{Users, UsersFault};
use std::alloc::{AllocError, Global};
use std::fs;
use std::io::{self, ErrorKind, Read, Write};
use std::marker::{Model, PhantomData};
use std::rt::Files;
use std::sync::{Mutex, Wait};

/// Why the registry keeps its users.
#[derive(Clone, Copy, Debug)]
enum ReloadFault {
    /// The file can't be read.
    Unread,
    /// It isn't a users file, or there is no memory for it.
    Users(UsersFault),
}

/// What can read a file in any thread. Each runtime with `Files` can.
pub trait ReadsFiles {
    /// The bytes of the file at the path. The error is that of the file, or out of memory.
    fn read_file(&self, alloc: Global, path: &str) -> io::Result<Vec<u8>>;
}

impl<R: Files> ReadsFiles for R {
    /// Opens the file, and reads it to its end. The error is that of the file, or out of memory.
    fn read_file(&self, alloc: Global, path: &str) -> io::Result<Vec<u8>> {
        let mut file = fs::open(self, path)?;
        let mut bytes = Vec::new(alloc);
        file.read_to_end(&mut bytes)?;
        Ok(bytes)
    }
}

/// Gives the registry the users that the bytes of a users file spell, and sets `last` to the bytes;
/// if they are those of `last` already, does nothing. After a fault of the file the users stay, but
/// `last` is set, so that the fault is reported once. If memory runs out `last` stays too, so that
/// the same bytes are tried again. The type `S` allows every list of users, as `reloading_of`
/// requires.
fn load<S: ServerBrand>(
    rt: &impl Wait,
    alloc: Global,
    registry: &SharedRegistry<S>,
    last: &mut Vec<u8>,
    bytes: Vec<u8>,
) -> Result<(), UsersFault>
    requires { (users : List Row) → S.loads users }
    ensures same { bytes.items ≡ last.old.items → result ≡ Ok tt }
    ensures changed { bytes.items ≢ last.old.items → Loads (users_in bytes.items) result }
    ensures last { result ≢ Err UsersFault.Memory → last.new.items ≡ bytes.items }
    ensures memory { result ≡ Err UsersFault.Memory → last.new.items ≡ last.old.items }
{
    if last.as_slice() == bytes.as_slice() {
        return Ok(());
    }
    let loaded = match Users::read(alloc, &bytes) {
        Ok(users) => match registry.reload(rt, alloc, users) {
            // the list that it returns is the one that was loaded
            Ok(_) => Ok(()),
            Err(_) => Err(UsersFault::Memory),
        },
        Err(fault) => Err(fault),
    };
    if loaded != Err(UsersFault::Memory) {
        *last = bytes;
    }
    loaded
}

/// The note of the first line that ends with a carriage return; None if there is none, or if the
/// bytes are those of `last`, of which it was printed before.
fn return_note_if_changed(last: &[u8], bytes: &[u8]) -> Option<ReturnNote>
    ensures same { last.now ≡ bytes.now → result ≡ None }
    ensures changed { last.now ≢ bytes.now → IsFirstReturn bytes.now result }
{
    if last == bytes {
        return None;
    }
    first_return(bytes)
}

/// The fault of a file that can't be read.
fn fault_of_read(error: &io::Error) -> ReloadFault {
    if error.kind() == ErrorKind::OutOfMemory {
        ReloadFault::Users(UsersFault::Memory)
    } else {
        ReloadFault::Unread
    }
}

/// What came of reading the file again.
#[derive(Clone, Copy, Debug)]
struct Reload {
    /// The first line of the file that ends with a carriage return, if it has one and if the file
    /// changed.
    note: Option<ReturnNote>,
    /// Ok if the registry has the users of the file now; else why it keeps its own.
    loaded: Result<(), ReloadFault>,
}

/// The users file of a server that reads it again, and so may load any list of users. Contracts see
/// nothing of it.
#[derive(Drop)]
pub(crate) struct Reloading<S: ServerBrand> {
    /// Of the users file, as the command line has it.
    path: String,
    /// The bytes that were last loaded, or refused with a line. The lock is held while the file is
    /// read, too; under it that of the registry is taken. No other code holds one lock while it
    /// takes another.
    last: Mutex<Vec<u8>>,
    /// For the type S, whose registries may load any list of users. It has no data.
    of: PhantomData<S>,
}

impl<S: ServerBrand> Model for Reloading<S> {
    ghost use Rattle.std.specs.Prelude.{List};
    ghost use Rattle.cs_users.specs.Rows.{Row};

    ghost Value = { Unit {0} };

    ghost view = { λ reloading. tt };

    ghost invariant = { λ reloading. (users : List Row) → S.loads users };
}

impl<S: ServerBrand> Reloading<S> {
    /// The users file at the path. `bytes` are those that it had when the server was made. The
    /// error is out of memory. The type `S` must allow every list of users.
    pub(crate) fn new(alloc: Global, path: &str, bytes: &[u8]) -> Result<Reloading<S>, AllocError>
        requires { (users : List Row) → S.loads users }
    {
        Ok(Reloading {
            path: path.to_string(alloc)?,
            last: Mutex::new(Vec::from_slice(alloc, bytes)?),
            of: PhantomData,
        })
    }

    /// Reads the file, and loads its users if it changed. After a fault the users stay. The lock is
    /// held all the time: else a thread could load what it read after another has read and loaded a
    /// later file.
    fn load_if_changed<R: ReadsFiles + Wait>(
        &self,
        rt: &R,
        alloc: Global,
        registry: &SharedRegistry<S>,
    ) -> Reload {
        let mut last = self.last.lock(rt);
        match rt.read_file(alloc, self.path.as_str()) {
            Ok(bytes) => {
                let note = return_note_if_changed(&last, &bytes);
                let loaded = load(rt, alloc, registry, &mut last, bytes);
                let loaded = loaded.map_err(ReloadFault::Users);
                Reload { note, loaded }
            }
            Err(error) => Reload {
                note: None,
                loaded: Err(fault_of_read(&error)),
            },
        }
    }

    /// Reads the file again: runs that are made from now on have its users. After a fault, which is
    /// printed, the users stay. A file that can't be read is reported each time; any other fault of
    /// the same bytes only once, unless it is out of memory. A line of the file that ends with a
    /// carriage return is reported too, and isn't a fault.
    pub(crate) fn reload_or_print<R: ReadsFiles + Wait, E: Write>(
        &self,
        rt: &R,
        alloc: Global,
        registry: &SharedRegistry<S>,
        log: Log<E>,
    ) {
        let path = self.path.as_str();
        let reload = self.load_if_changed(rt, alloc, registry);
        if let Some(note) = reload.note {
            log.print_fault(rt, &note);
        }
        match reload.loaded {
            Ok(()) => {}
            Err(ReloadFault::Unread) => log.print_fault(rt, &format_args!("{path}: cannot read")),
            Err(ReloadFault::Users(fault)) => log.print_fault(rt, &fault),
        }
    }
}
