//! NBD_OPT_EXPORT_NAME and its answer.

ghost use Rattle.std.specs.Prelude.{◌≡◌, ◌≤◌, length, IfOk, OnOk};
ghost use Rattle.std.specs.Io.KnownBytes.{Appends, Keeps};
ghost use Rattle.remote_nbd.specs.Messages.{name_request};
ghost use Rattle.remote_nbd.specs.Opening.{Names};

use crate::export::{Export, numbers};
use crate::fault::OpenFault;
use crate::go::option_bytes;
use remote_wire::{Wire, receive_exact, send_all};

const NBD_OPT_EXPORT_NAME: u32 = 1;

/// Asks for an export by EXPORT_NAME.
fn ask_by_name<W: Wire>(wire: &mut W, name: &[u8]) -> Result<(), OpenFault>
    requires { length name.now ≤ 4096 }
    ensures asked { OnOk result (Appends (W.contents wire.old) (W.contents wire.new) (name_request name.now)) }
    ensures unread { Keeps (W.remaining wire.old) (W.remaining wire.new) }
{
    send_all(wire, &option_bytes(NBD_OPT_EXPORT_NAME, name.len() as u32))?;
    send_all(wire, name)?;
    Ok(())
}

/// Takes the answer to EXPORT_NAME.
fn take_answer<W: Wire>(wire: &mut W, no_zeroes: bool) -> Result<Export, OpenFault>
    ensures given { IfOk result (λ export. Names (W.remaining wire.old) (W.remaining wire.new) export) }
    ensures unwritten { Keeps (W.contents wire.old) (W.contents wire.new) }
{
    if no_zeroes {
        let mut answer = [0u8; 10];
        receive_exact(wire, &mut answer)?;
        return Ok(numbers(&answer));
    }
    let mut answer = [0u8; 134];
    receive_exact(wire, &mut answer)?;
    Ok(numbers(&answer))
}

/// Opens an export by EXPORT_NAME. A server that has none ends the connection.
///
/// # Errors
///
/// `Connection`.
pub fn open_by_name<W: Wire>(
    wire: &mut W,
    name: &[u8],
    no_zeroes: bool,
) -> Result<Export, OpenFault>
    requires { length name.now ≤ 4096 }
    ensures given { IfOk result (λ export. Names (W.remaining wire.old) (W.remaining wire.new) export) }
    ensures asked { OnOk result (Appends (W.contents wire.old) (W.contents wire.new) (name_request name.now)) }
{
    ask_by_name(wire, name)?;
    take_answer(wire, no_zeroes)
}
