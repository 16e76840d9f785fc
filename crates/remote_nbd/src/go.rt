//! NBD_OPT_GO and its replies.

ghost use Rattle.std.specs.Prelude.{◌≡◌, ◌+◌, ◌≤◌, ◌++◌, length, take, IfOk, OnOk, IfSome, IsSome};
ghost use Rattle.std.specs.Io.KnownBytes.{Appends, Consumes, Keeps};
ghost use Rattle.byteorder.specs.Endian.{big_bytes};
ghost use Rattle.remote_nbd.specs.Messages.{option_head, reply_head, go_request, go_reply};
ghost use Rattle.remote_nbd.specs.Opening.{Goes};

use crate::export::{Export, learn};
use crate::fault::{OpenFault, Refusal};
use byteorder::{BigEndian, ByteOrder};
use remote_wire::{Wire, receive_exact, send_all};
use std::alloc::{AllocError, Global};

const IHAVEOPT: u64 = 0x4948_4156_454f_5054;

const REPLY_MAGIC: u64 = 0x0003_e889_0455_65a9;

const NBD_OPT_GO: u32 = 7;

const NBD_REP_ACK: u32 = 1;

const NBD_REP_INFO: u32 = 3;

const NBD_REP_ERR_UNSUP: u32 = 0x8000_0001;

/// The most data of a reply, in bytes: a string of the protocol, which has 4096 at most, and the type of an information.
const MAX_DATA: usize = 4098;

/// The most informations: the protocol has five.
const MAX_INFOS: usize = 64;

/// The head of an option.
pub fn option_bytes(option: u32, len: u32) -> [u8; 16]
    ensures { result ≡ option_head option len }
{
    let mut bytes = [0u8; 16];
    BigEndian::write_u64(&mut bytes, IHAVEOPT);
    BigEndian::write_u32(&mut bytes[8..], option);
    BigEndian::write_u32(&mut bytes[12..], len);
    bytes
}

/// The client's flags, GO's head, and the length of the name.
fn go_front(flags: u32, name_len: u32) -> [u8; 24]
    requires { name_len ≤ 4096 }
    ensures { result ≡ big_bytes 4 flags ++ option_head 7 (name_len + 6) ++ big_bytes 4 name_len }
{
    let mut bytes = [0u8; 24];
    BigEndian::write_u32(&mut bytes, flags);
    BigEndian::write_u64(&mut bytes[4..], IHAVEOPT);
    BigEndian::write_u32(&mut bytes[12..], NBD_OPT_GO);
    BigEndian::write_u32(&mut bytes[16..], name_len + 6);
    BigEndian::write_u32(&mut bytes[20..], name_len);
    bytes
}

/// Asks for an export by GO.
pub fn ask_to_go<W: Wire>(wire: &mut W, flags: u32, name: &[u8]) -> Result<(), OpenFault>
    requires { length name.now ≤ 4096 }
    ensures asked { OnOk result (Appends (W.contents wire.old) (W.contents wire.new) (go_request flags name.now)) }
    ensures unread { Keeps (W.remaining wire.old) (W.remaining wire.new) }
{
    send_all(wire, &go_front(flags, name.len() as u32))?;
    send_all(wire, name)?;
    send_all(wire, &[0u8; 2])?;
    Ok(())
}

/// A reply to GO, whose data stand in front of a buffer.
#[derive(Clone, Copy, Debug)]
struct Reply {
    kind: u32,
    len: usize,
}

/// The head of a reply to GO.
fn reply_bytes(kind: u32, len: u32) -> [u8; 20]
    ensures { result ≡ reply_head 7 kind len }
{
    let mut bytes = [0u8; 20];
    BigEndian::write_u64(&mut bytes, REPLY_MAGIC);
    BigEndian::write_u32(&mut bytes[8..], NBD_OPT_GO);
    BigEndian::write_u32(&mut bytes[12..], kind);
    BigEndian::write_u32(&mut bytes[16..], len);
    bytes
}

/// The reply whose head this is; none where it is no head of a reply to GO.
fn reply_in(head: &[u8; 20]) -> Option<Reply>
    ensures { IfSome result (λ reply. head.now ≡ reply_head 7 reply.kind reply.len) }
{
    let kind = BigEndian::read_u32(&head[12..]);
    let len = BigEndian::read_u32(&head[16..]);
    (*head == reply_bytes(kind, len)).then_some(Reply {
        kind,
        len: len as usize,
    })
}

/// Takes one reply to GO.
///
/// # Errors
///
/// `Connection`, and `BadReply` where it is none, or has more data than the buffer has room for.
fn take_reply<W: Wire>(wire: &mut W, buffer: &mut [u8]) -> Result<Reply, OpenFault>
    ensures given { IfOk result (λ reply. Consumes (W.remaining wire.old) (W.remaining wire.new)
        (go_reply reply.kind (take reply.len buffer.new))) }
    ensures fits { IfOk result (λ reply. reply.len ≤ length buffer.new) }
    ensures unwritten { Keeps (W.contents wire.old) (W.contents wire.new) }
{
    let mut head = [0u8; 20];
    receive_exact(wire, &mut head)?;
    let Some(reply) = reply_in(&head) else {
        return Err(OpenFault::BadReply);
    };
    if reply.len > buffer.len() {
        return Err(OpenFault::BadReply);
    }
    receive_exact(wire, &mut buffer[..reply.len])?;
    Ok(reply)
}

/// Takes the replies to GO: the export, or none where the server has no GO. Each is read into the same 4 KiB.
///
/// # Errors
///
/// `Connection`, `Refused` for an error reply, and `BadReply` for what the protocol hasn't.
pub fn take_replies<W: Wire>(wire: &mut W, alloc: Global) -> Result<Option<Export>, OpenFault>
    ensures given { IfOk result (λ export. Goes (W.remaining wire.old) (W.remaining wire.new) export) }
    ensures unwritten { Keeps (W.contents wire.old) (W.contents wire.new) }
{
    let mut bytes = [0u8; MAX_DATA];
    let mut found = None;
    'replies: for _reply in 0..MAX_INFOS {
        let reply = take_reply(wire, &mut bytes)?;
        let said = &bytes[..reply.len];
        match reply.kind {
            NBD_REP_INFO => found = learn(found, said)?,
            NBD_REP_ACK => return accepted(found, said),
            NBD_REP_ERR_UNSUP => return Ok(None),
            kind => return Err(refused(alloc, kind, said)),
        }
    }
    Err(OpenFault::BadReply)
}

/// The export that GO opened.
///
/// # Errors
///
/// `BadReply` where none was described, or NBD_REP_ACK has data.
fn accepted(found: Option<Export>, said: &[u8]) -> Result<Option<Export>, OpenFault>
    ensures { IfOk result (λ export. (export ≡ found) × (IsSome found) × (length said.now ≡ 0)) }
{
    if found.is_none() || !said.is_empty() {
        return Err(OpenFault::BadReply);
    }
    Ok(found)
}

/// What an error reply is told as.
fn refused(alloc: Global, kind: u32, said: &[u8]) -> OpenFault {
    if kind < NBD_REP_ERR_UNSUP {
        return OpenFault::BadReply;
    }
    match text_behind_colon(alloc, said) {
        Ok(text) => OpenFault::Refused(Refusal::of(kind), text),
        Err(e) => OpenFault::NoMemory(e),
    }
}

/// A server's text behind a colon, where it has one of visible ASCII and spaces, else nothing.
fn text_behind_colon(alloc: Global, said: &[u8]) -> Result<String, AllocError> {
    let mut text = String::new(alloc);
    if said.is_empty() || !said.iter().all(is_plain) {
        return Ok(text);
    }
    text.push_str(": ")?;
    text.push_str(std::str::from_utf8(said).unwrap_or(""))?;
    Ok(text)
}

/// Visible ASCII or a space.
fn is_plain(byte: &u8) -> bool {
    byte.is_ascii_graphic() || *byte == b' '
}
