//! A script, read whole.
ghost use Rattle.std.specs.Prelude.{◌≡◌, ◌↔◌, ⊤, IfOk, IfErr, IfSome, IsTrue};
ghost use Rattle.std.specs.IoError.{error_kind};
ghost use Rattle.cli_faults.specs.Errors.{is_memory, IsOfScript};

use cli_faults::{Failure, is_want_of_memory};
use std::alloc::Global;
use std::io;
use std::io::Read;
use verity_store::StoreFault;

/// The most bytes of a script.
const MOST_BYTES: u64 = 1 << 30;

/// The bytes of a script. S1 where it can't be read, or is longer than 2^30 bytes.
pub fn read_script<I: Read>(alloc: Global, input: &mut I) -> Result<Vec<u8>, Failure>
    ensures read { IfOk result (λ script. IfSome (I.remaining input.old) (λ bytes. script.items ≡ bytes)) }
    ensures refused { IfErr result (IsOfScript ⊤) }
{
    let mut script = Vec::new(alloc);
    match input.take(MOST_BYTES + 1).read_to_end(&mut script) {
        Ok(_) => {}
        Err(error) => return Err(unread(error)),
    }
    if script.len() as u64 > MOST_BYTES {
        return Err(StoreFault::Device.into());
    }
    Ok(script)
}

/// Why a script isn't read, by the system's error: want of memory where that is what it was, S1 for all else.
pub fn unread(error: io::Error) -> Failure
    ensures script { IsOfScript ⊤ result }
    ensures memory { (result ≡ Failure.NoMemory) ↔ IsTrue (is_memory (error_kind error)) }
{
    if is_want_of_memory(&error) {
        Failure::NoMemory
    } else {
        StoreFault::Device.into()
    }
}
