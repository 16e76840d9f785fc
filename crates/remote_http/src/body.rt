//! The body of a response.

ghost use Rattle.std.specs.Prelude.{◌≡◌, ◌++◌, List, ℕ, OnOk};
ghost use Rattle.std.specs.Io.KnownBytes.{Consumes, Keeps};

use crate::fault::RangeFault;
use remote_wire::{Wire, receive_exact};

/// Fills `out` by the bytes that came with the head, and by the next ones.
///
/// # Errors
///
/// `Connection` with what the connection answers, and `OtherBody` where more came than `out` has room for.
pub fn read_body<W: Wire>(wire: &mut W, early: &[u8], out: &mut [u8]) -> Result<(), RangeFault>
    ensures given { OnOk result ((rest : List ℕ) × (out.new ≡ early.now ++ rest)
        × Consumes (W.remaining wire.old) (W.remaining wire.new) rest) }
    ensures unwritten { Keeps (W.contents wire.old) (W.contents wire.new) }
{
    if early.len() > out.len() {
        return Err(RangeFault::OtherBody);
    }
    out[..early.len()].copy_from_slice(early);
    receive_exact(wire, &mut out[early.len()..])?;
    Ok(())
}
