//! Why a command stops, and what is printed then.
ghost use Rattle.std.specs.Prelude.{◌≡◌, IsOk, OnOk, OnErr};
ghost use Rattle.std.specs.Io.KnownBytes.{Appends};
ghost use Rattle.std.specs.IoError.{error_kind};
ghost use Rattle.cli_faults.specs.Errors.{failure_of_error, is_memory};
ghost use Rattle.cli_faults.specs.Faults.{failure_line, failure_of, status_for};
ghost use Rattle.cli_faults.specs.Words.{word_wanted};
ghost use Rattle.cli_faults.specs.declared.fault.Fault.TheVariants as fault;

use crate::fault::Fault;
use crate::status::{NO_MEMORY, NOT_UNDERSTOOD, REFUSED};
use nbd_session::SessionFault;
use std::alloc::AllocError;
use std::io::{ErrorKind, Write};
use std::{fmt, io};
use verity_build::BuildFault;
use verity_check::CheckFault;
use verity_digest::SaltFault;
use verity_edit::EditFault;
use verity_store::StoreFault;
use verity_superblock::{SuperFault, TableFault};

/// The arguments and options whose values are read here.
#[derive(Clone, Copy, Debug, PartialEq, Eq)]
pub enum Word {
    Data,
    Hash,
    New,
    Salt,
    Uuid,
    DataBlocks,
    DataBlockSize,
    HashBlockSize,
    Algorithm,
    HashOffset,
    Cache,
    DataCache,
    Sessions,
    Memory,
    Idle,
    Stall,
    Journal,
    Timeout,
    Slice,
    TableFile,
    ToFile,
}

impl fmt::Display for Word {
    ghost use Rattle.std.specs.Prelude.{Some};
    ghost use Rattle.cli_faults.specs.Words.{word_name};

    ghost output = { λ word. Some (word_name word) };

    fn fmt<W: fmt::Write>(&self, f: &mut fmt::Formatter<W>) -> fmt::Result {
        f.write_str(match self {
            Word::Data => "DATA",
            Word::Hash => "HASH",
            Word::New => "NEW",
            Word::Salt => "--salt",
            Word::Uuid => "--uuid",
            Word::DataBlocks => "--data-blocks",
            Word::DataBlockSize => "--data-block-size",
            Word::HashBlockSize => "--hash-block-size",
            Word::Algorithm => "--algorithm",
            Word::HashOffset => "--hash-offset",
            Word::Cache => "--cache",
            Word::DataCache => "--data-cache",
            Word::Sessions => "--sessions",
            Word::Memory => "--memory",
            Word::Idle => "--idle",
            Word::Stall => "--stall",
            Word::Journal => "--journal",
            Word::Timeout => "--timeout",
            Word::Slice => "--slice",
            Word::TableFile => "--table-file",
            Word::ToFile => "--to-file",
        })
    }
}

impl Word {
    /// What can stand there.
    pub fn wanted(self) -> &'static str
        ensures { result.now ≡ word_wanted self }
    {
        match self {
            Word::Data => "a path that isn't empty and has no space, since a table line names it",
            Word::Hash =>
                "another file than DATA, by a path that isn't empty and has no space, since a table line names it",
            Word::New => "another file than DATA and HASH",
            Word::Salt => "two hexadecimal digits a byte, or none for the empty salt",
            Word::Uuid => "a UUID, as 01234567-89ab-cdef-0123-456789abcdef",
            Word::DataBlocks => "a count of blocks, in decimal digits",
            Word::DataBlockSize | Word::HashBlockSize => "a count of bytes, in decimal digits",
            Word::Algorithm => "sha256 or sha512",
            Word::HashOffset => "a count of bytes, in decimal digits",
            Word::Cache => "a count of hash blocks, in decimal digits",
            Word::DataCache => "a count of data blocks, in decimal digits",
            Word::Sessions => "a count of connections, in decimal digits, at most 4294967295",
            Word::Memory => "a count of MiB, in decimal digits, from 33 to 1048576",
            Word::Idle | Word::Stall => "a count of seconds, in decimal digits",
            Word::Journal =>
                "a path that leads neither to DATA nor to HASH; none, of edit and update, for no journal; a device has one only if named",
            Word::Timeout => "a count of seconds, in decimal digits, from 1 to 86400",
            Word::Slice =>
                "K/N in decimal digits, the K-th of N, K from 1 to N, and N at most 65536; not beside --join",
            Word::TableFile =>
                "the path of a file that is neither DATA nor HASH nor the journal, in place of --table; not beside --slice",
            Word::ToFile => "the path of a file that is neither DATA nor HASH, in place of --to",
        }
    }
}

/// Why a command stopped.
#[derive(Clone, Copy, Debug, PartialEq, Eq)]
pub enum Failure {
    /// A word isn't a value of its kind.
    Word(Word),
    /// A layer below refused.
    Refused(Fault),
    /// Memory was refused.
    NoMemory,
    /// The output can't be written.
    Output,
}

/// Prints why a command stopped: one line, or nothing where the output can't be written.
pub fn print_failure<W: Write>(failure: Failure, output: &mut W) -> io::Result<()>
    ensures printed { OnOk result (Appends (W.contents output.old) (W.contents output.new) (failure_line failure)) }
    ensures nothing { failure ≡ Failure.Output → IsOk result }
{
    match failure {
        Failure::Word(word) => writeln!(output, "error: the value of {word} is not understood"),
        Failure::Refused(fault) => writeln!(output, "refused {fault}"),
        Failure::NoMemory => writeln!(output, "no memory"),
        Failure::Output => Ok(()),
    }
}

/// The status for a failure that was printed; 1, where it couldn't be.
pub fn status_after(failure: Failure, printed: io::Result<()>) -> u8
    ensures printed { OnOk printed (result ≡ status_for failure) }
    ensures unprinted { OnErr printed (result ≡ 1) }
{
    match printed {
        Ok(()) => status_of(failure),
        Err(_) => REFUSED,
    }
}

fn status_of(failure: Failure) -> u8
    ensures { result ≡ status_for failure }
{
    match failure {
        Failure::Word(_) => NOT_UNDERSTOOD,
        Failure::Refused(_) => REFUSED,
        Failure::NoMemory => NO_MEMORY,
        Failure::Output => REFUSED,
    }
}

impl From<Fault> for Failure {
    ghost from_gives = { λ f failure. failure ≡ failure_of f };

    fn from(fault: Fault) -> Failure {
        if fault.is_no_memory() {
            Failure::NoMemory
        } else {
            Failure::Refused(fault)
        }
    }
}

impl From<StoreFault> for Failure {
    ghost from_gives = { λ f failure. failure ≡ failure_of (fault.Store f) };

    fn from(fault: StoreFault) -> Failure {
        Fault::Store(fault).into()
    }
}

impl From<SaltFault> for Failure {
    ghost from_gives = { λ f failure. failure ≡ failure_of (fault.Salt f) };

    fn from(fault: SaltFault) -> Failure {
        Fault::Salt(fault).into()
    }
}

impl From<SuperFault> for Failure {
    ghost from_gives = { λ f failure. failure ≡ failure_of (fault.Superblock f) };

    fn from(fault: SuperFault) -> Failure {
        Fault::Superblock(fault).into()
    }
}

impl From<TableFault> for Failure {
    ghost from_gives = { λ f failure. failure ≡ failure_of (fault.Table f) };

    fn from(fault: TableFault) -> Failure {
        Fault::Table(fault).into()
    }
}

impl From<BuildFault> for Failure {
    ghost from_gives = { λ f failure. failure ≡ failure_of (fault.Build f) };

    fn from(fault: BuildFault) -> Failure {
        Fault::Build(fault).into()
    }
}

impl From<CheckFault> for Failure {
    ghost from_gives = { λ f failure. failure ≡ failure_of (fault.Check f) };

    fn from(fault: CheckFault) -> Failure {
        Fault::Check(fault).into()
    }
}

impl From<EditFault> for Failure {
    ghost from_gives = { λ f failure. failure ≡ failure_of (fault.Edit f) };

    fn from(fault: EditFault) -> Failure {
        Fault::Edit(fault).into()
    }
}

impl From<SessionFault> for Failure {
    ghost from_gives = { λ f failure. failure ≡ failure_of (fault.Session f) };

    fn from(fault: SessionFault) -> Failure {
        Fault::Session(fault).into()
    }
}

impl From<AllocError> for Failure {
    ghost use Rattle.cli_faults.specs.declared.failure.Failure.TheVariants.{NoMemory};

    ghost from_gives = { λ _ f. f ≡ NoMemory };

    fn from(_error: AllocError) -> Failure {
        Failure::NoMemory
    }
}

impl From<io::Error> for Failure {
    ghost from_gives = { λ e failure. failure ≡ failure_of_error e };

    fn from(error: io::Error) -> Failure {
        if is_want_of_memory(&error) {
            Failure::NoMemory
        } else {
            Failure::Output
        }
    }
}

/// Whether an error of the system is want of memory.
pub fn is_want_of_memory(error: &io::Error) -> bool
    ensures { result ≡ is_memory (error_kind error.now) }
{
    matches!(error.kind(), ErrorKind::OutOfMemory)
}
