//! The lines of a server.

ghost use Rattle.std.specs.Prelude.{◌≢◌, IsOk, OnOk, codes};
ghost use Rattle.std.specs.Io.KnownBytes.{Appends, Keeps};
ghost use Rattle.nbd_serve.specs.Lines.{line, ended_line};
ghost use Rattle.nbd_serve.specs.declared.stop.Stop.TheVariants as stop;

use crate::stop::Stop;
use nbd_hub::ServeFault;
use std::io::{ErrorKind, Write};

/// Prints that clients are waited for.
///
/// # Errors
///
/// [`Stop::NoMemory`] where the output refused for want of memory, else [`Stop::Output`].
pub fn tell_listening<W: Write>(output: &mut W) -> Result<(), Stop>
    ensures printed { OnOk result (Appends (W.contents output.old) (W.contents output.new) (line (codes "listening"))) }
    ensures fault { result ≢ Err stop.Socket }
{
    let written = writeln!(output, "listening");
    flushed(written, output)
}

/// Prints how a client's session ended.
///
/// # Errors
///
/// As [`tell_listening`].
pub fn tell_end<W: Write>(
    output: &mut W,
    number: u64,
    fault: Option<ServeFault>,
) -> Result<(), Stop>
    ensures printed { OnOk result (Appends (W.contents output.old) (W.contents output.new) (ended_line (number, fault))) }
    ensures fault { result ≢ Err stop.Socket }
{
    let written = match fault {
        None => writeln!(output, "session {number} ended"),
        Some(fault) => writeln!(output, "session {number} {fault}"),
    };
    flushed(written, output)
}

fn flushed<W: Write>(written: std::io::Result<()>, output: &mut W) -> Result<(), Stop>
    ensures written { OnOk result (IsOk written) }
    ensures kept { OnOk result (Keeps (W.contents output.old) (W.contents output.new)) }
    ensures fault { result ≢ Err stop.Socket }
{
    let result = match written {
        Ok(()) => output.flush(),
        Err(e) => Err(e),
    };
    match result {
        Ok(()) => Ok(()),
        Err(e) => {
            if e.kind() == ErrorKind::OutOfMemory {
                Err(Stop::NoMemory)
            } else {
                Err(Stop::Output)
            }
        }
    }
}
