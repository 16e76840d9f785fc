//! An export, as a server describes it.

ghost use Rattle.std.specs.Prelude.{◌≡◌, ◌≤◌, ◌++◌, length, IfOk};
ghost use Rattle.remote_nbd.specs.Messages.{number_at};
ghost use Rattle.remote_nbd.specs.Opening.{export_in, known};

use crate::fault::OpenFault;
use byteorder::{BigEndian, ByteOrder};

const NBD_INFO_EXPORT: u16 = 0;

/// What a server states of its export.
#[derive(Clone, Copy, Debug, PartialEq, Eq)]
pub struct Export {
    /// How many bytes it has.
    pub size: u64,
    /// Its transmission flags.
    pub flags: u16,
}

/// The numbers of an export: eight bytes and two.
pub fn numbers(bytes: &[u8]) -> Export
    requires { 10 ≤ length bytes.now }
    ensures size { result.size ≡ number_at 0 8 bytes.now }
    ensures flags { result.flags ≡ number_at 8 2 bytes.now }
{
    Export {
        size: BigEndian::read_u64(bytes),
        flags: BigEndian::read_u16(&bytes[8..]),
    }
}

/// What is known of the export after one more information.
///
/// # Errors
///
/// `BadReply` where it is none, or describes an export again.
pub fn learn(found: Option<Export>, info: &[u8]) -> Result<Option<Export>, OpenFault>
    ensures { IfOk result (λ after. known after ≡ known found ++ export_in info.now) }
{
    if info.len() < 2 {
        return Err(OpenFault::BadReply);
    }
    if BigEndian::read_u16(info) != NBD_INFO_EXPORT {
        return Ok(found);
    }
    match found {
        None if info.len() == 12 => Ok(Some(numbers(&info[2..]))),
        _ => Err(OpenFault::BadReply),
    }
}
