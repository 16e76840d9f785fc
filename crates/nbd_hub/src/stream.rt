//! One session over a stream.

ghost use Rattle.std.specs.Prelude.{◌≡◌, ◌≢◌, ◌↔◌, true, false, ◌≤◌, ◌<◌, ◌+◌, ◌++◌, length, List, [], ℕ, Some, None, Err, OnOk};
ghost use Rattle.std.specs.Prelude.{OnErr, IfErr, IsErrOf};
ghost use Rattle.std.specs.Io.KnownBytes.{Appends};
ghost use Rattle.nbd_session.specs.Export.{Keeps};
ghost use Rattle.nbd_session.specs.Session.{State, IsAt};
ghost use Rattle.nbd_session.specs.Handshake.{greeting};
ghost use Rattle.nbd_hub.specs.History.{Step};
ghost use Rattle.nbd_hub.specs.Sessions.{SetsOnly, lookup, max_open, max_opened};
ghost use Rattle.nbd_hub.specs.After.{IsAfter};
ghost use Rattle.nbd_hub.specs.Failures.{FailsToRead, FailsToWrite};
ghost use Rattle.nbd_hub.specs.Stream.{Exchanged, Served, ServedAfter, TurnedAfter};

use crate::ends::{Input, Output};
use crate::fault::{HubFault, ServeFault};
use crate::sessions::Sessions;
use nbd_session::{Export, Status};
use std::alloc::Allocator;

/// The most bytes that one turn reads: those of a request's header, so that at most one READ's bytes are held.
const TURN_BYTES: usize = 28;

/// Writes all of the bytes, or a beginning.
fn write_out<W: Output>(writer: &mut W, bytes: &[u8]) -> Result<(), ServeFault>
    ensures ok { OnOk result (Appends (W.contents writer.old) (W.contents writer.new) bytes.now) }
    ensures err { OnErr result ((part : List ℕ) × (rest : List ℕ) × (bytes.now ≡ part ++ rest)
        × Appends (W.contents writer.old) (W.contents writer.new) part) }
    ensures fault { IfErr result (λ fault. fault ≡ ServeFault.Write) }
    ensures failed { FailsToWrite (W.failures writer.old) (W.failures writer.new) result }
{
    let mut done = 0;
    while done < bytes.len() {
        match writer.write(&bytes[done..]) {
            Ok(0) => return Err(ServeFault::Write),
            Ok(taken) => done += taken,
            Err(_) => return Err(ServeFault::Write),
        }
    }
    match writer.flush() {
        Ok(()) => Ok(()),
        Err(_) => Err(ServeFault::Write),
    }
}

/// Whether a session that isn't starved has ended.
fn is_over(status: Status) -> bool
    ensures { (result ≡ true) ↔ (status ≡ Status.Ended) }
{
    match status {
        Status::Ended => true,
        Status::Open | Status::Starved => false,
    }
}

/// Feeds a piece and writes the replies, and tells whether the session has ended.
fn exchange<E: Export, A: Allocator + Copy, W: Output>(
    hub: &mut Sessions<E, A>,
    id: u64,
    piece: &[u8],
    out: &mut Vec<u8, A>,
    writer: &mut W,
) -> Result<bool, ServeFault>
    requires { (session : State) × (lookup id hub.old.0.sessions ≡ Some session) }
    ensures offer { hub.new.0.offer ≡ hub.old.0.offer }
    ensures keeps { Keeps (E.facts hub.old.1) (E.facts hub.new.1) }
    ensures later { E.later hub.old.1 hub.new.1 }
    ensures next { hub.new.0.next ≡ hub.old.0.next }
    ensures count { length hub.new.0.sessions ≡ length hub.old.0.sessions }
    ensures exchanged { (before after : State) × (lookup id hub.old.0.sessions ≡ Some before) × (before.offer ≡ hub.old.0.offer)
        × (after.offer ≡ hub.old.0.offer)
        × SetsOnly hub.old.0.sessions hub.new.0.sessions id (Some after)
        × Exchanged (E.facts hub.old.1) (E.facts hub.new.1) before after piece.now (W.contents writer.old) (W.contents writer.new) result }
    ensures write_failed { FailsToWrite (W.failures writer.old) (W.failures writer.new) result }
    ensures after { (history : List Step) → IsAfter (E.facts hub.old.1) hub.old.0 history
        → TurnedAfter (E.facts hub.new.1) hub.new.0 history id }
{
    out.clear();
    match hub.feed(id, piece, out) {
        Ok(status) => {
            if let Status::Starved = status {
                return Err(ServeFault::Starved);
            }
            match write_out(writer, out) {
                Ok(()) => Ok(is_over(status)),
                Err(_) => Err(ServeFault::Write),
            }
        }
        Err(_) => unreachable!(),
    }
}

/// Writes the greeting, then takes turns with the client.
fn converse<E: Export, A: Allocator + Copy, R: Input, W: Output>(
    hub: &mut Sessions<E, A>,
    id: u64,
    out: &mut Vec<u8, A>,
    reader: &mut R,
    writer: &mut W,
    limit: u64,
) -> Result<(), ServeFault>
    requires greets { out.old.items ≡ greeting }
    requires one { (session : State) × (lookup id hub.old.0.sessions ≡ Some session) × IsAt session [] × (session.starved ≡ false)
        × (session.offer ≡ hub.old.0.offer) }
    ensures offer { hub.new.0.offer ≡ hub.old.0.offer }
    ensures keeps { Keeps (E.facts hub.old.1) (E.facts hub.new.1) }
    ensures later { E.later hub.old.1 hub.new.1 }
    ensures next { hub.new.0.next ≡ hub.old.0.next }
    ensures count { length hub.new.0.sessions ≡ length hub.old.0.sessions }
    ensures others { (session : State) × SetsOnly hub.old.0.sessions hub.new.0.sessions id (Some session) }
    ensures served { Served (E.facts hub.old.1) (E.facts hub.new.1) hub.old.0.offer
        (record {
          reader = R.remaining reader.old;
          reader' = R.remaining reader.new;
          writer = W.contents writer.old;
          writer' = W.contents writer.new;
        }) limit result }
    ensures read_failed { FailsToRead (R.failures reader.old) (R.failures reader.new) result }
    ensures write_failed { FailsToWrite (W.failures writer.old) (W.failures writer.new) result }
    ensures hub { (fault : HubFault) → IsErrOf result (ServeFault.Hub fault) → ⊥ }
    ensures after { (history : List Step) → IsAfter (E.facts hub.old.1) hub.old.0 history
        → TurnedAfter (E.facts hub.new.1) hub.new.0 history id }
{
    if write_out(writer, out).is_err() {
        return Err(ServeFault::Write);
    }
    let mut piece = [0u8; TURN_BYTES];
    for turn in 0..limit {
        let taken = match reader.read(&mut piece) {
            Ok(taken) => taken,
            Err(_) => return Err(ServeFault::Read),
        };
        if taken == 0 {
            return Ok(());
        }
        match exchange(hub, id, &piece[..taken], out, writer) {
            Ok(over) => {
                if over {
                    return Ok(());
                }
            }
            Err(fault) => return Err(fault),
        }
    }
    Err(ServeFault::Turns)
}

/// Serves one client over a stream: opens a session, writes the greeting, then reads at most 28 bytes a turn, feeds them
/// and writes the replies before the next turn. So at most one READ's bytes are held, in one buffer that is kept. At each
/// exit the session is ended.
///
/// It answers Ok at the end of input, and once the session has ended; at most 27 bytes after the ending message are then
/// read and dropped.
///
/// # Errors
///
/// N1 where the reader failed, and nowhere else; N2 where the writer failed or took no byte, and nowhere else, and what went
/// out is a beginning of the output; N3 where `limit` turns gave bytes and the session hasn't ended; N4 where the session
/// starved; N5 where no session could be opened, with the sessions' own fault, and nothing was read or written.
pub fn serve<E: Export, A: Allocator + Copy, R: Input, W: Output>(
    hub: &mut Sessions<E, A>,
    reader: &mut R,
    writer: &mut W,
    limit: u64,
) -> Result<(), ServeFault>
    ensures offer { hub.new.0.offer ≡ hub.old.0.offer }
    ensures keeps { Keeps (E.facts hub.old.1) (E.facts hub.new.1) }
    ensures later { E.later hub.old.1 hub.new.1 }
    ensures served { Served (E.facts hub.old.1) (E.facts hub.new.1) hub.old.0.offer
        (record {
          reader = R.remaining reader.old;
          reader' = R.remaining reader.new;
          writer = W.contents writer.old;
          writer' = W.contents writer.new;
        }) limit result }
    // It was left for a failure of an end where that failed, and nowhere else.
    ensures read_failed { FailsToRead (R.failures reader.old) (R.failures reader.new) result }
    ensures write_failed { FailsToWrite (W.failures writer.old) (W.failures writer.new) result }
    // No session came about.
    ensures full { (result ≡ Err (ServeFault.Hub HubFault.Full)) ↔ (max_open ≤ length hub.old.0.sessions) }
    ensures spent { (result ≡ Err (ServeFault.Hub HubFault.Spent))
        ↔ ((length hub.old.0.sessions < max_open) × (max_opened ≤ hub.old.0.next)) }
    ensures known { result ≢ Err (ServeFault.Hub HubFault.Unknown) }
    ensures refused { (fault : HubFault) → IsErrOf result (ServeFault.Hub fault) → hub.new ≡ hub.old }
    // One came about, and it is ended.
    ensures ended { ((fault : HubFault) → IsErrOf result (ServeFault.Hub fault) → ⊥)
        → SetsOnly hub.old.0.sessions hub.new.0.sessions hub.old.0.next None }
    ensures opened { ((fault : HubFault) → IsErrOf result (ServeFault.Hub fault) → ⊥) → hub.new.0.next ≡ hub.old.0.next + 1 }
    ensures count { length hub.new.0.sessions ≡ length hub.old.0.sessions }
    ensures after { ((fault : HubFault) → IsErrOf result (ServeFault.Hub fault) → ⊥) → (history : List Step)
        → IsAfter (E.facts hub.old.1) hub.old.0 history
        → ServedAfter (E.facts hub.new.1) hub.new.0 history hub.old.0.next }
{
    let mut out = Vec::new(hub.allocator());
    match hub.open(&mut out) {
        Ok(id) => {
            let result = converse(hub, id, &mut out, reader, writer, limit);
            match hub.end(id) {
                Ok(()) => result,
                Err(_) => unreachable!(),
            }
        }
        Err(fault) => Err(ServeFault::Hub(fault)),
    }
}
