//! "Option haggling": what the server says to an option.
//!
//! | Option | Answer |
//! |---|---|
//! | EXPORT_NAME 1 | size, flags, 124 zeros unless both sides set no zeroes; then transmission. Another name ends the session. |
//! | ABORT 2 | ACK, and the session ends |
//! | LIST 3 | the one export and ACK; ERR_INVALID with data |
//! | INFO 6, GO 7 | see [`info`](crate::info) |
//! | all others | ERR_UNSUP |

ghost use Rattle.std.specs.Prelude.{◌≡◌, ◌≤◌, ◌<◌, ◌^◌, ◌++◌, List, [], ℕ, length, IfOk, OnOk, OnErr, true};
ghost use Rattle.byteorder.specs.Endian.{big_bytes};
ghost use Rattle.nbd_session.specs.Protocol.{option_reply_magic};
ghost use Rattle.nbd_session.specs.Messages.{option_body};
ghost use Rattle.nbd_session.specs.Options.{export_name_reply, list_replies, means_export, option_answer, option_reply, phase_after_option};
ghost use Rattle.nbd_session.specs.Conversation.{Grows};

use crate::info::answer_info;
use crate::offer::Offer;
use crate::phase::Phase;
use crate::wire::{u32_at, u32_bytes, u64_at};
use byteorder::{BigEndian, ByteOrder};
use std::alloc::{AllocError, Allocator};

/// Begins the greeting's second half, and each option.
pub const IHAVEOPT: u64 = 0x4948_4156_454f_5054;

/// Has flags, and read-only.
pub const TRANSMISSION_FLAGS: u16 = 3;

const NBD_OPT_EXPORT_NAME: u32 = 1;

const NBD_OPT_ABORT: u32 = 2;

const NBD_OPT_LIST: u32 = 3;

const NBD_OPT_INFO: u32 = 6;

const NBD_OPT_GO: u32 = 7;

const OPTION_REPLY_MAGIC: u64 = 0x0003_e889_0455_65a9;

/// The reply types.
pub const NBD_REP_ACK: u32 = 1;

const NBD_REP_SERVER: u32 = 2;

pub const NBD_REP_INFO: u32 = 3;

const NBD_REP_ERR_UNSUP: u32 = 0x8000_0001;

pub const NBD_REP_ERR_INVALID: u32 = 0x8000_0003;

pub const NBD_REP_ERR_UNKNOWN: u32 = 0x8000_0006;

/// The most bytes of an option's data.
const MAX_OPTION_DATA: u32 = 65_536;

/// The size of an option's data. None ends the session: a wrong magic, data that is too long, and any option but
/// EXPORT_NAME of a client that isn't fixed newstyle.
pub fn body_size(fixed_newstyle: bool, header: &[u8]) -> Option<u32>
    requires { 16 ≤ length header.now }
    ensures { result ≡ option_body fixed_newstyle header.now }
{
    let magic = u64_at(header, 0);
    let number = u32_at(header, 8);
    let len = u32_at(header, 12);
    if magic == IHAVEOPT
        && len <= MAX_OPTION_DATA
        && (fixed_newstyle || number == NBD_OPT_EXPORT_NAME)
    {
        Some(len)
    } else {
        None
    }
}

/// An option reply, before its data.
fn reply_head(number: u32, kind: u32, len: u32) -> [u8; 20]
    ensures { result ≡ big_bytes 8 option_reply_magic ++ big_bytes 4 number ++ big_bytes 4 kind ++ big_bytes 4 len }
{
    let mut head = [0u8; 20];
    BigEndian::write_u64(&mut head, OPTION_REPLY_MAGIC);
    BigEndian::write_u32(&mut head[8..], number);
    BigEndian::write_u32(&mut head[12..], kind);
    BigEndian::write_u32(&mut head[16..], len);
    head
}

/// Appends one option reply.
pub fn reply<A: Allocator>(
    number: u32,
    kind: u32,
    bytes: &[u8],
    out: &mut Vec<u8, A>,
) -> Result<(), AllocError>
    requires { length bytes.now < 2 ^ 32 }
    ensures ok { OnOk result (out.new.items ≡ out.old.items ++ option_reply number kind bytes.now) }
    ensures err { OnErr result (Grows out.old.items out.new.items) }
{
    let head = reply_head(number, kind, bytes.len() as u32);
    out.extend_from_slice(&head)?;
    out.extend_from_slice(bytes)?;
    Ok(())
}

/// Whether a name means the export: its own, or the empty one.
pub fn means_export(offer: &Offer, name: &[u8]) -> bool
    ensures { result ≡ means_export offer.now name.now }
{
    name.is_empty() || name == offer.name.bytes()
}

/// Answers EXPORT_NAME for a name that means the export.
fn export_name<A: Allocator>(
    offer: &Offer,
    no_zeroes: bool,
    out: &mut Vec<u8, A>,
) -> Result<(), AllocError>
    ensures ok { (name : List ℕ) → means_export offer.now name ≡ true →
        OnOk result (out.new.items ≡ out.old.items ++ export_name_reply offer.now no_zeroes name) }
    ensures err { OnErr result (Grows out.old.items out.new.items) }
{
    let mut reply = [0u8; 134];
    BigEndian::write_u64(&mut reply, offer.size);
    BigEndian::write_u16(&mut reply[8..], TRANSMISSION_FLAGS);
    if no_zeroes {
        out.extend_from_slice(&reply[..10])
    } else {
        out.extend_from_slice(&reply)
    }
}

/// Answers LIST without data: the one export's name, and ACK.
fn tell_name<A: Allocator>(
    offer: &Offer,
    number: u32,
    out: &mut Vec<u8, A>,
) -> Result<(), AllocError>
    ensures ok { OnOk result (out.new.items ≡ out.old.items ++ list_replies offer.now number []) }
    ensures err { OnErr result (Grows out.old.items out.new.items) }
{
    let name = offer.name.bytes();
    let size = u32_bytes(name.len() as u32);
    let head = reply_head(number, NBD_REP_SERVER, name.len() as u32 + 4);
    out.extend_from_slice(&head)?;
    out.extend_from_slice(&size)?;
    out.extend_from_slice(name)?;
    let end = reply_head(number, NBD_REP_ACK, 0);
    out.extend_from_slice(&end)?;
    Ok(())
}

/// Answers LIST.
fn list<A: Allocator>(
    offer: &Offer,
    number: u32,
    bytes: &[u8],
    out: &mut Vec<u8, A>,
) -> Result<(), AllocError>
    ensures ok { OnOk result (out.new.items ≡ out.old.items ++ list_replies offer.now number bytes.now) }
    ensures err { OnErr result (Grows out.old.items out.new.items) }
{
    if bytes.is_empty() {
        tell_name(offer, number, out)?;
        return Ok(());
    }
    reply(number, NBD_REP_ERR_INVALID, &[], out)?;
    Ok(())
}

/// Answers an option, and tells the phase after it.
pub fn answer_option<A: Allocator>(
    offer: &Offer,
    fixed_newstyle: bool,
    no_zeroes: bool,
    number: u32,
    bytes: &[u8],
    out: &mut Vec<u8, A>,
) -> Result<Phase, AllocError>
    ensures phase { IfOk result (λ next. next ≡ phase_after_option offer.now fixed_newstyle no_zeroes number bytes.now) }
    ensures ok { OnOk result (out.new.items ≡ out.old.items ++ option_answer offer.now no_zeroes number bytes.now) }
    ensures err { OnErr result (Grows out.old.items out.new.items) }
{
    match number {
        NBD_OPT_EXPORT_NAME => {
            if !means_export(offer, bytes) {
                return Ok(Phase::Ended);
            }
            export_name(offer, no_zeroes, out)?;
            Ok(Phase::Transmission)
        }
        NBD_OPT_ABORT => {
            reply(number, NBD_REP_ACK, &[], out)?;
            Ok(Phase::Ended)
        }
        NBD_OPT_LIST => {
            list(offer, number, bytes, out)?;
            Ok(Phase::Options {
                fixed_newstyle,
                no_zeroes,
            })
        }
        NBD_OPT_INFO => {
            answer_info(offer, number, bytes, out)?;
            Ok(Phase::Options {
                fixed_newstyle,
                no_zeroes,
            })
        }
        NBD_OPT_GO => {
            if answer_info(offer, number, bytes, out)? {
                return Ok(Phase::Transmission);
            }
            Ok(Phase::Options {
                fixed_newstyle,
                no_zeroes,
            })
        }
        _ => {
            reply(number, NBD_REP_ERR_UNSUP, &[], out)?;
            Ok(Phase::Options {
                fixed_newstyle,
                no_zeroes,
            })
        }
    }
}
