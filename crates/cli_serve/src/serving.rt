//! The command `serve`: serves a volume over NBD.

ghost use Rattle.std.specs.Prelude.{◌≡◌, ℕ, List, true, Ok, IfOk, IfErr, OnOk};
ghost use Rattle.nbd_hub.specs.History.{Step};
ghost use Rattle.nbd_hub.specs.After.{IsAfter};
ghost use Rattle.nbd_serve.specs.Lines.{IsServed};
ghost use Rattle.nbd_serve.specs.Sockets.{AreGivenBack, IsOfOne};
ghost use Rattle.verity_chain.specs.Right.{Fits};
ghost use Rattle.verity_hub.specs.Verdicts.{facts_of, IsRightFor};
ghost use Rattle.cli_faults.specs.Errors.{IsS1For};
ghost use Rattle.os_commit_flag.specs.Refusals.{BlamesNone};
ghost use Rattle.cli_serve.specs.Blamed.{ServeBlames};
ghost use Rattle.cli_serve.specs.Limited.{AreLimitsOf, IsTimeOf};
ghost use Rattle.cli_serve.specs.Printed.{IsServedAsAsked};
ghost use Rattle.cli_serve.specs.Serving.{IsOpenedBy};
ghost use Rattle.cli_faults.specs.declared.failure.Word.{Word};

use crate::bad_places::BadPlaces;
use crate::failing::fail;
use crate::opened::open_hub;
use cli_arguments::ServeWords;
use cli_faults::{Command, DONE, Failure, Fault, REFUSED, Word, memory, number, sessions};
use nbd_connection::{Door, Limits, Watched};
use nbd_serve::Stop;
use os_files::System;
use std::alloc::Global;
use std::fs::File;
use std::io::{Eprint, ErrorKind, Write};
use std::net::{Net, TcpListener, TcpStream};
use std::os::unix::net::UnixListener;
use std::rt::Files;
use std::time::{Clock, Duration};
use verity_hub::{Hub, Notices, serve_clients};
use verity_store::BlockStore;

/// What stands before the path of a Unix socket.
const UNIX: &str = "unix:";

/// The bytes of a mebibyte.
const MEBIBYTE: u64 = 1 << 20;

/// Serves the volume that a table line names to so many connections, and prints what [`serve_on`] says. On standard error it prints each
/// place for which READs are refused, once: at most 1,000.
///
/// Faults are found in this order: the words, the line, the name, the two files (data first), the verifier, the listener.
/// The file of a Unix socket, which is made here, is removed at the end.
pub fn serve<
    R: Files<File = File>
        + Net<Stream = TcpStream, Listener = TcpListener>
        + Clock
        + Eprint
        + AllocGlobal,
    S: System,
    W: Write,
>(rt: &R, system: &S, words: &ServeWords<'_>, output: &mut W) -> Result<u8, Failure>
    ensures opened { OnOk result (IsOpenedBy S.System system.now words.now.table.now) }
    ensures done { result ≡ Ok 0
        → IsServedAsAsked words.now.sessions.now (W.contents output.old) (W.contents output.new) }
    ensures blames { IfErr result (ServeBlames words.now) }
    ensures system { IfErr result (IsS1For (S.refuses system.now ≡ true)) }
{
    let cache = number(Word::Cache, words.cache)? as usize;
    let data_cache = number(Word::DataCache, words.data_cache)? as usize;
    let count = sessions(words.sessions)?;
    let limits = limits(words)?;
    serve_over(rt, system, words, cache, data_cache, limits, count, output)
}

/// Opens the volume, and serves it at the address.
fn serve_over<
    R: Files<File = File>
        + Net<Stream = TcpStream, Listener = TcpListener>
        + Clock
        + Eprint
        + AllocGlobal,
    S: System,
    W: Write,
>(
    rt: &R,
    system: &S,
    words: &ServeWords<'_>,
    cache: usize,
    data_cache: usize,
    limits: Limits,
    count: u64,
    output: &mut W,
) -> Result<u8, Failure>
    ensures opened { OnOk result (IsOpenedBy S.System system.now words.now.table.now) }
    ensures done { result ≡ Ok 0 → IsServed (W.contents output.old) (W.contents output.new) count true }
    ensures blames { IfErr result BlamesNone }
    ensures system { IfErr result (IsS1For (S.refuses system.now ≡ true)) }
{
    let places = BadPlaces::new(rt)?;
    let mut hub = open_hub(
        system,
        words.table,
        words.name,
        cache,
        data_cache,
        Command::Serve,
        places,
    )?;
    listen(rt, &mut hub, words.listen, limits, count, output)
}

/// Serves at an address.
fn listen<
    R: Files<File = File> + Net<Stream = TcpStream, Listener = TcpListener> + Clock + AllocGlobal,
    D: BlockStore,
    H: BlockStore,
    N: Notices,
    W: Write,
>(
    rt: &R,
    hub: &mut Hub<D, H, Global, N>,
    address: &str,
    limits: Limits,
    count: u64,
    output: &mut W,
) -> Result<u8, Failure>
    ensures done { result ≡ Ok 0 → IsServed (W.contents output.old) (W.contents output.new) count true }
    ensures blames { IfErr result BlamesNone }
    ensures system { IfErr result (IsS1For ⊥) }
{
    match address.strip_prefix(UNIX) {
        // The system would find a name of its own for an empty path.
        Some("") => Err(Fault::Socket.into()),
        Some(path) => {
            let door = UnixListener::bind(rt, path).map_err(socket)?;
            let mut listener = Watched::new(door, limits, rt);
            let status = serve_on(hub, &mut listener, count, output);
            let _ = rt.remove_file(path);
            Ok(status)
        }
        None => {
            let door = TcpListener::bind(rt, address).map_err(socket)?;
            let mut listener = Watched::new(door, limits, rt);
            Ok(serve_on(hub, &mut listener, count, output))
        }
    }
}

/// What the words say that clients may take.
fn limits(words: &ServeWords<'_>) -> Result<Limits, Failure>
    ensures limits { IfOk result (AreLimitsOf words.now) }
    ensures blames { IfErr result (ServeBlames words.now) }
    ensures words { IfErr result (λ e. (w : Word) × (e ≡ Failure.Word w)) }
{
    let mebibytes = memory(words.memory)?;
    let idle = number(Word::Idle, words.idle)?;
    let stall = number(Word::Stall, words.stall)?;
    Ok(Limits {
        pending: mebibytes * MEBIBYTE,
        idle: time_of(idle),
        stall: time_of(stall),
    })
}

/// So many seconds, or no time, of none.
fn time_of(seconds: u64) -> Option<Duration>
    ensures { IsTimeOf seconds result }
{
    if seconds == 0 {
        None
    } else {
        Some(Duration::from_secs(seconds))
    }
}

/// N6; or want of memory, where that is what it was.
fn socket(error: std::io::Error) -> Failure
    ensures blames { BlamesNone result }
    ensures system { IsS1For ⊥ result }
{
    if error.kind() == ErrorKind::OutOfMemory {
        Failure::NoMemory
    } else {
        Fault::Socket.into()
    }
}

/// Prints `listening`, then serves this many connections, up to 64 at a time, and prints for each as it ends
/// `session K ended`, or `session K ` and the fault's text; K counts them from 1 on as they are accepted. It answers the
/// status: 0 where no line named a fault, 1 where one did, where connections can't be accepted (N6), and where the
/// output can't be written; 3 for want of memory.
///
/// However it ends, each connection that was accepted was given back, and what it had been sent is right for every image that fits the
/// table line, as [`serve_clients`] says.
pub fn serve_on<D: BlockStore, H: BlockStore, N: Notices, L: Door, W: Write>(
    hub: &mut Hub<D, H, Global, N>,
    listener: &mut L,
    sessions: u64,
    output: &mut W,
) -> u8
    ensures done { result ≡ 0 → IsServed (W.contents output.old) (W.contents output.new) sessions true }
    ensures right { (history : List Step) → IsAfter (facts_of D.BlockStore H.BlockStore hub.old.1) hub.old.0 history
        → (image : List (List ℕ)) → Fits hub.old.1.table image
        → AreGivenBack (IsOfOne (IsRightFor D.BlockStore H.BlockStore hub.new.1 image) hub.new.0.offer)
        (L.visits listener.old) (L.visits listener.new) }
{
    match serve_clients(hub, listener, sessions, output) {
        Ok(true) => DONE,
        Ok(false) => REFUSED,
        Err(Stop::Socket) => fail(Fault::Socket.into(), output),
        Err(Stop::NoMemory) => fail(Failure::NoMemory, output),
        Err(Stop::Output) => fail(Failure::Output, output),
    }
}
