//! NBD_OPT_INFO and NBD_OPT_GO: what the server tells of the export.
//!
//! Their data is the name's length, the name, the count of information requests and their types. Data that doesn't
//! parse exactly to its end is ERR_INVALID, another name ERR_UNKNOWN. Else NBD_INFO_EXPORT is told, then
//! NBD_INFO_BLOCK_SIZE once if it is asked for at least once, then ACK. Other types are ignored.

ghost use Rattle.std.specs.Prelude.{◌≡◌, ◌≤◌, ◌*◌, ◌++◌, length, IfOk, OnOk, OnErr, true};
ghost use Rattle.nbd_session.specs.Options.{block_size_info, block_size_reply, export_info, info_replies, is_info_data, known_replies};
ghost use Rattle.nbd_session.specs.Options.{lists_type, names_export, wants_block_size};
ghost use Rattle.nbd_session.specs.Conversation.{Grows};

use crate::offer::Offer;
use crate::options::{
    NBD_REP_ACK, NBD_REP_ERR_INVALID, NBD_REP_ERR_UNKNOWN, NBD_REP_INFO, TRANSMISSION_FLAGS,
    means_export, reply,
};
use crate::transmission::MAX_LENGTH;
use crate::wire::{u16_at, u32_at};
use byteorder::{BigEndian, ByteOrder};
use std::alloc::{AllocError, Allocator};

const NBD_INFO_EXPORT: u16 = 0;

const NBD_INFO_BLOCK_SIZE: u16 = 3;

/// Whether the data parses exactly to its end.
fn is_info_data(bytes: &[u8]) -> bool
    ensures { result ≡ is_info_data bytes.now }
{
    if bytes.len() < 6 {
        return false;
    }
    let name_len = u32_at(bytes, 0) as usize;
    if bytes.len() - 6 < name_len {
        return false;
    }
    let count = u16_at(bytes, 4 + name_len) as usize;
    bytes.len() == 6 + name_len + 2 * count
}

/// Whether NBD_INFO_BLOCK_SIZE stands among the types.
fn lists_block_size(count: usize, types: &[u8]) -> bool
    requires { 2 * count ≤ length types.now }
    ensures { result ≡ lists_type count 3 types.now }
{
    let mut left = count;
    let mut place = 0;
    while left > 0 {
        if u16_at(types, place) == NBD_INFO_BLOCK_SIZE {
            return true;
        }
        place += 2;
        left -= 1;
    }
    false
}

/// Whether data that parses asks for the block sizes.
fn wants_block_size(bytes: &[u8]) -> bool
    requires { is_info_data bytes.now ≡ true }
    ensures { result ≡ wants_block_size bytes.now }
{
    let name_len = u32_at(bytes, 0) as usize;
    let count = u16_at(bytes, 4 + name_len) as usize;
    lists_block_size(count, &bytes[6 + name_len..])
}

/// The data of NBD_INFO_EXPORT: type, size, transmission flags.
fn export_info(size: u64) -> [u8; 12]
    ensures { result ≡ export_info size }
{
    let mut info = [0u8; 12];
    BigEndian::write_u16(&mut info, NBD_INFO_EXPORT);
    BigEndian::write_u64(&mut info[2..], size);
    BigEndian::write_u16(&mut info[10..], TRANSMISSION_FLAGS);
    info
}

/// The data of NBD_INFO_BLOCK_SIZE: type, minimum, preferred, maximum ("Block size constraints").
fn block_size_info(block: u32) -> [u8; 14]
    ensures { result ≡ block_size_info block }
{
    let mut info = [0u8; 14];
    BigEndian::write_u16(&mut info, NBD_INFO_BLOCK_SIZE);
    BigEndian::write_u32(&mut info[2..], 1);
    BigEndian::write_u32(&mut info[6..], block);
    BigEndian::write_u32(&mut info[10..], MAX_LENGTH);
    info
}

/// Tells the block sizes, if they are asked for.
fn tell_block_size<A: Allocator>(
    wanted: bool,
    block: u32,
    number: u32,
    out: &mut Vec<u8, A>,
) -> Result<(), AllocError>
    ensures ok { OnOk result (out.new.items ≡ out.old.items ++ block_size_reply wanted block number) }
    ensures err { OnErr result (Grows out.old.items out.new.items) }
{
    if wanted {
        reply(number, NBD_REP_INFO, &block_size_info(block), out)?;
    }
    Ok(())
}

/// Answers data that parses and names the export.
fn tell_export<A: Allocator>(
    offer: &Offer,
    number: u32,
    bytes: &[u8],
    out: &mut Vec<u8, A>,
) -> Result<(), AllocError>
    requires { is_info_data bytes.now ≡ true }
    ensures ok { OnOk result (out.new.items ≡ out.old.items ++ known_replies offer.now number bytes.now) }
    ensures err { OnErr result (Grows out.old.items out.new.items) }
{
    let wanted = wants_block_size(bytes);
    reply(number, NBD_REP_INFO, &export_info(offer.size), out)?;
    tell_block_size(wanted, offer.block, number, out)?;
    reply(number, NBD_REP_ACK, &[], out)?;
    Ok(())
}

/// Answers INFO and GO, and tells whether the export was named.
pub fn answer_info<A: Allocator>(
    offer: &Offer,
    number: u32,
    bytes: &[u8],
    out: &mut Vec<u8, A>,
) -> Result<bool, AllocError>
    ensures named { IfOk result (λ named. named ≡ names_export offer.now bytes.now) }
    ensures ok { OnOk result (out.new.items ≡ out.old.items ++ info_replies offer.now number bytes.now) }
    ensures err { OnErr result (Grows out.old.items out.new.items) }
{
    if !is_info_data(bytes) {
        reply(number, NBD_REP_ERR_INVALID, &[], out)?;
        return Ok(false);
    }
    let name_len = u32_at(bytes, 0) as usize;
    if !means_export(offer, &bytes[4..4 + name_len]) {
        reply(number, NBD_REP_ERR_UNKNOWN, &[], out)?;
        return Ok(false);
    }
    tell_export(offer, number, bytes, out)?;
    Ok(true)
}
