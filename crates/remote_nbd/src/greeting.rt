//! The first bytes of a server.

ghost use Rattle.std.specs.Prelude.{◌≡◌, length, take, OnOk, IsTrue};
ghost use Rattle.std.specs.Io.KnownBytes.{Keeps};
ghost use Rattle.remote_nbd.specs.Messages.{magics};
ghost use Rattle.remote_nbd.specs.Opening.{Greets};

use crate::fault::OpenFault;
use byteorder::{BigEndian, ByteOrder};
use remote_wire::{Wire, receive_exact};

const NBDMAGIC: u64 = 0x4e42_444d_4147_4943;

const IHAVEOPT: u64 = 0x4948_4156_454f_5054;

/// Whether a greeting begins as one of newstyle.
fn is_newstyle(greeting: &[u8; 18]) -> bool
    ensures { IsTrue result → take 16 greeting.now ≡ magics }
{
    let mut magics = [0u8; 16];
    BigEndian::write_u64(&mut magics, NBDMAGIC);
    BigEndian::write_u64(&mut magics[8..], IHAVEOPT);
    greeting[..16] == magics[..]
}

/// Takes the greeting of a server of fixed newstyle; whether it offers to leave the zeros behind the answer to EXPORT_NAME out.
///
/// # Errors
///
/// `Connection`, and `NotNbd` where it is none.
pub fn take_greeting<W: Wire>(wire: &mut W) -> Result<bool, OpenFault>
    ensures greeted { OnOk result (Greets (W.remaining wire.old) (W.remaining wire.new)) }
    ensures unwritten { Keeps (W.contents wire.old) (W.contents wire.new) }
{
    let mut greeting = [0u8; 18];
    receive_exact(wire, &mut greeting)?;
    let flags = BigEndian::read_u16(&greeting[16..]);
    if !is_newstyle(&greeting) || flags % 2 == 0 {
        return Err(OpenFault::NotNbd);
    }
    Ok(flags / 2 % 2 == 1)
}
