//! "Fixed newstyle negotiation": the greeting, and the client's flags.

ghost use Rattle.std.specs.Prelude.{◌≡◌, ◌≤◌, length};
ghost use Rattle.nbd_session.specs.Handshake.{greeting, phase_after_flags};
ghost use Rattle.nbd_session.specs.Messages.{flags_body, number_at};

use crate::options::IHAVEOPT;
use crate::phase::Phase;
use crate::wire::u32_at;
use byteorder::{BigEndian, ByteOrder};

const NBDMAGIC: u64 = 0x4e42_444d_4147_4943;

/// Fixed newstyle, and no zeroes.
const HANDSHAKE_FLAGS: u16 = 3;

/// The first bytes that a server sends.
pub fn greeting() -> [u8; 18]
    ensures { result ≡ greeting }
{
    let mut bytes = [0u8; 18];
    BigEndian::write_u64(&mut bytes, NBDMAGIC);
    BigEndian::write_u64(&mut bytes[8..], IHAVEOPT);
    BigEndian::write_u16(&mut bytes[16..], HANDSHAKE_FLAGS);
    bytes
}

/// The client's flags have no body; other flags than bits 0 and 1 end the session.
pub fn body_size(flags: &[u8]) -> Option<u32>
    requires { 4 ≤ length flags.now }
    ensures { result ≡ flags_body flags.now }
{
    (u32_at(flags, 0) < 4).then_some(0)
}

/// The phase after the client's flags: bit 0 is fixed newstyle, bit 1 is no zeroes.
pub fn after_flags(flags: &[u8]) -> Phase
    requires { 4 ≤ length flags.now }
    ensures { result ≡ phase_after_flags (number_at 0 4 flags.now) }
{
    let flags = u32_at(flags, 0);
    Phase::Options {
        fixed_newstyle: flags % 2 == 1,
        no_zeroes: flags / 2 % 2 == 1,
    }
}
