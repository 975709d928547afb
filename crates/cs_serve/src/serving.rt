//! The command `serve`, after its files were read, from the scene to the lines of the runs. What
//! one connection's thread does is in `slots` and `connection`.
ghost use Rattle.std.specs.Prelude.{◌≡◌, ◌≤◌, IfOk, IsSome, List};
ghost use Rattle.std.specs.Arc.{arc_value};
ghost use Rattle.cs_users.specs.Rows.{Row};
ghost use Rattle.cs_serve.specs.Users.{AreGiven};
ghost use Rattle.cs_shared_runs.specs.Serving.{IsOnly, ServesAll};

use crate::address::Address;
use crate::entrance::Entrance;
use crate::log::Log;
use crate::publishing::publish_or_print;
use crate::reloading::{ReadsFiles, Reloading};
use crate::site::Site;
use crate::slots::{start_slots, start_watch};
use crate::summary::summary_of_runs;
use cs_connection::Server;
use cs_inputs::{Inputs, ProgramFault, print_to, scene_of, users_of};
use cs_options::Serving;
use cs_plan::Scene;
use cs_shared_runs::{ServerBrand, SharedRegistry};
use std::alloc::Global;
use std::io::{self, Read, Write};
use std::marker::Brand;
use std::net::{Net, TcpListener, TcpStream};
use std::rt::Clock;
use std::sync::{Arc, Mutex, Wait};
use std::thread;
use std::thread::Threads;

/// A server of the scene with the users of the inputs. No state is published yet. The error is a
/// fault of the users file, or out of memory. The type `S` must allow the scene and these users.
pub(crate) fn server_of<S: ServerBrand>(
    alloc: Global,
    scene: Arc<Scene>,
    inputs: &Inputs,
) -> Result<Server<S>, ProgramFault>
    requires here { S.is_scene (arc_value scene) }
    requires serves { ServesAll S.serves S.loads (arc_value scene) }
    requires given { (users : List Row) → AreGiven inputs.now users → S.loads users }
    ensures { IfOk result (λ server. server ≡ arc_value scene) }
{
    let users = users_of(alloc, inputs.users)?;
    let Ok(users) = Arc::new(alloc, users) else {
        return Err(ProgramFault::Memory);
    };
    match SharedRegistry::new(alloc, scene, users) {
        Ok(registry) => Ok(Server::new(registry)),
        Err(_) => Err(ProgramFault::Memory),
    }
}

/// The users file that is read again; None without `reload`. The error is out of memory. With
/// `reload` the type `S` must allow every list of users.
fn reloading_of<S: ServerBrand>(
    alloc: Global,
    inputs: &Inputs,
    serving: Serving,
) -> Result<Option<Reloading<S>>, ProgramFault>
    requires { IsSome serving.reload → (users : List Row) → S.loads users }
{
    let Some(path) = serving.reload else {
        return Ok(None);
    };
    match Reloading::new(alloc, path, inputs.users) {
        Ok(reloading) => Ok(Some(reloading)),
        Err(_) => Err(ProgramFault::Memory),
    }
}

/// An entrance for `left` connections, or any number if it is None, on the address, HOST:PORT, and
/// the port that it has, which the system chose if PORT is 0.
fn open_entrance<R: Net<Listener = TcpListener, Stream = TcpStream>>(
    rt: &R,
    alloc: Global,
    given: &str,
    left: Option<u32>,
) -> io::Result<(Entrance, u16)> {
    let listener = TcpListener::bind(rt, given)?;
    let port = listener.local_addr()?.port();
    listener.set_nonblocking(true)?;
    Ok((Entrance::new(rt, alloc, listener, left)?, port))
}

/// Prints the address that the server listens on, with the port that it has, and flushes. After an
/// error a part of the line may be written.
fn print_address<W: Write>(given: &str, taken: u16, out: &mut W) -> Result<(), ProgramFault> {
    let address = Address { given, taken };
    writeln!(out, "listening {address}").map_err(|_| ProgramFault::Output)?;
    out.flush().map_err(|_| ProgramFault::Output)
}

/// Accepts connections, serves each in one of `connections` threads, and returns once all threads
/// have ended. Without `ready` it also publishes the states, in another thread, and waits for that
/// too. False if a fault was printed; if that was a thread that can't be started, the entrance is
/// closed. The type `S` must allow no other scene than the site's.
fn serve_each<
    's,
    S: ServerBrand + Send + Sync + 's,
    R: Threads + Wait + Clock + ReadsFiles + Sync,
    I: Read + Drop + Send,
    E: Write + Send,
>(rt: &'s R, alloc: Global, site: &'s Site<S>, serving: Serving, input: I, log: Log<'s, E>) -> bool
    requires { IsOnly S.is_scene site.now.server }
{
    let (workers, connections) = (serving.workers, serving.connections);
    let (ready, client) = (serving.ready, serving.client);
    let watched = serving.again && !serving.until_killed;
    thread::scope(
        thread::scope_env(),
        rt,
        move |scope| -> bool
            requires { IsOnly S.is_scene site.now.server }
        {
            if !start_watch(scope, rt, watched, input, &site.entrance, log) {
                return false;
            }
            if ready {
                return start_slots(scope, rt, alloc, site, connections, client, log);
            }
            let publisher = scope.spawn(
                move || -> bool
                    requires { IsOnly S.is_scene site.now.server }
                { publish_or_print(rt, alloc, &site.server, workers, log) },
            );
            let Ok(publisher) = publisher else {
                log.print_fault(rt, &ProgramFault::Memory);
                site.entrance.close(rt);
                return false;
            };
            let started = start_slots(scope, rt, alloc, site, connections, client, log);
            publisher.join(rt) && started
        },
    )
}

/// Makes a server of the scene, serves it, and prints the lines of its runs. `S` says which scene
/// the server may have: this one only. It also says which users it may have: those of the inputs,
/// and with `reload` any. The result is as in `run_server`: an error is a fault that isn't printed
/// yet.
fn serve_scene<S: ServerBrand + Send + Sync, R, I: Read + Drop + Send, W: Write, E: Write + Send>(
    rt: &R,
    alloc: Global,
    scene: Arc<Scene>,
    inputs: &Inputs,
    serving: Serving,
    input: I,
    out: &mut W,
    log: Log<E>,
) -> Result<bool, ProgramFault>
where
    R: Net<Listener = TcpListener, Stream = TcpStream> + Threads + Wait + Clock + ReadsFiles + Sync,
    requires here { S.is_scene (arc_value scene) }
    requires only { IsOnly S.is_scene (arc_value scene) }
    requires serves { ServesAll S.serves S.loads (arc_value scene) }
    requires given { (users : List Row) → AreGiven inputs.now users → S.loads users }
    requires later { IsSome serving.reload → (users : List Row) → S.loads users }
{
    let server = server_of::<S>(alloc, scene, inputs)?;
    let reloading = reloading_of::<S>(alloc, inputs, serving)?;
    if serving.ready && !publish_or_print(rt, alloc, &server, serving.workers, log) {
        return Ok(false);
    }
    let left = if serving.again {
        None
    } else {
        Some(serving.connections)
    };
    let (entrance, port) = match open_entrance(rt, alloc, serving.listen, left) {
        Ok(opened) => opened,
        Err(error) => {
            log.print_no_listener(rt, serving.listen, &error);
            return Ok(false);
        }
    };
    print_address(serving.listen, port, out)?;
    let site = Site::new(alloc, server, entrance, reloading);
    let served = serve_each(rt, alloc, &site, serving, input, log);
    let failed = site.entrance.has_failed(rt);
    let (server, passes) = site.into_parts();
    let summary = summary_of_runs(rt, alloc, &server.into_registry(), &passes)?;
    print_to(out, summary.as_bytes())?;
    out.flush().map_err(|_| ProgramFault::Output)?;
    Ok(served && !failed)
}

/// Runs the command, as `serve_of` says. True if no fault was printed, false if one was. An error
/// is a fault that ended the command and isn't printed yet: `serve_of` prints it.
fn run_server<R, I: Read + Drop + Send, W: Write, E: Write + Send>(
    rt: &R,
    alloc: Global,
    inputs: &Inputs,
    serving: Serving,
    input: I,
    out: &mut W,
    log: Log<E>,
) -> Result<bool, ProgramFault>
where
    R: Net<Listener = TcpListener, Stream = TcpStream> + Threads + Wait + Clock + ReadsFiles + Sync,
{
    let scene = scene_of(alloc, inputs)?;
    let Ok(scene) = Arc::new(alloc, scene) else {
        return Err(ProgramFault::Memory);
    };
    serve_scene::<Brand, R, I, W, E>(rt, alloc, scene, inputs, serving, input, out, log)
}

/// The command `serve`. It publishes all states, prints on `out` the address that it listens on,
/// serves each connection in a thread, and at the end prints a line for each run, with its audit by
/// the passes of all connections. With `ready` it publishes before it listens, else at the same
/// time as it serves.
///
/// It ends when `connections` connections have ended. With `again` that is how many it serves at
/// once: when one has ended it accepts another, until `input`, which is standard input, ends or
/// can't be read. Then it listens no more, and ends when the connections that it has are served.
/// The bytes of `input` are dropped; without `again` none is read. Nor is one with `until_killed`:
/// then it accepts connections until it is killed.
///
/// With `reload` it reads the users file again after each accept: runs that are made from then on
/// have its users. If the file can't be read or isn't a users file, or if memory runs out, a line
/// on `err` says so, and the users stay.
///
/// It returns 0, or 1 if a fault was printed, each as a line on `err`; what it printed on `out`
/// before that stays. A fault of a connection, or of a users file that is read again, doesn't count
/// for this. If accepting or publishing fails while there are connections, these are served to
/// their end, and the runs are printed; with `again` not before `input` ends. If the inputs are
/// verbose, `err` also gets a line for each connection that comes and for each that ends, each
/// message with its reply, and each attach that was granted. It may wait for clients forever.
pub fn serve_of<R, I: Read + Drop + Send, W: Write, E: Write + Send>(
    rt: &R,
    alloc: Global,
    inputs: &Inputs,
    serving: Serving,
    input: I,
    out: &mut W,
    err: &Mutex<E>,
) -> u8
where
    R: Net<Listener = TcpListener, Stream = TcpStream> + Threads + Wait + Clock + ReadsFiles + Sync,
    ensures { result ≤ 1 }
{
    let log = Log {
        writer: err,
        verbose: inputs.verbose,
        progress: serving.progress,
    };
    match run_server(rt, alloc, inputs, serving, input, out, log) {
        Ok(true) => 0,
        Ok(false) => 1,
        Err(fault) => {
            // only the fault that ended the command is reported
            let _printed = out.flush();
            log.print_fault(rt, &fault);
            1
        }
    }
}
