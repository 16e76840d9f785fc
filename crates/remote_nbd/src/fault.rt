//! Why a server opened no export.

use std::alloc::AllocError;
use std::{fmt, io};
use thiserror::Error;

/// Why a server opened no export. The connection is of no use then.
#[derive(Debug, Drop, Error)]
pub enum OpenFault {
    /// The connection failed, or ended early.
    #[error("{0}")]
    Connection(#[from] io::Error),
    /// There is too little memory here.
    #[error("out of memory")]
    NoMemory(#[from] AllocError),
    /// The name of the export has more than `MAX_NAME` bytes.
    #[error("the export's name is too long")]
    LongName,
    /// What came isn't the greeting of a server of fixed newstyle.
    #[error("the server doesn't speak NBD's fixed newstyle")]
    NotNbd,
    /// A reply to another option, one of more than 4 KiB, an information twice, or one that the protocol hasn't.
    #[error("the server breaks the NBD protocol")]
    BadReply,
    /// An error reply, and its text behind a colon where that is of visible ASCII and spaces, else nothing.
    #[error("{0}{1}")]
    Refused(Refusal, String),
}

/// The error of a reply to an option.
#[derive(Clone, Copy, Debug, PartialEq, Eq)]
pub enum Refusal {
    /// NBD_REP_ERR_POLICY
    Policy,
    /// NBD_REP_ERR_INVALID
    Invalid,
    /// NBD_REP_ERR_PLATFORM
    Platform,
    /// NBD_REP_ERR_TLS_REQD
    TlsRequired,
    /// NBD_REP_ERR_UNKNOWN
    Unknown,
    /// NBD_REP_ERR_SHUTDOWN
    Shutdown,
    /// NBD_REP_ERR_BLOCK_SIZE_REQD
    BlockSizeRequired,
    /// NBD_REP_ERR_TOO_BIG
    TooBig,
    /// Any other, by its number.
    Other(u32),
}

impl Refusal {
    /// The error of a reply of this kind.
    pub(crate) fn of(kind: u32) -> Refusal {
        match kind {
            0x8000_0002 => Refusal::Policy,
            0x8000_0003 => Refusal::Invalid,
            0x8000_0004 => Refusal::Platform,
            0x8000_0005 => Refusal::TlsRequired,
            0x8000_0006 => Refusal::Unknown,
            0x8000_0007 => Refusal::Shutdown,
            0x8000_0008 => Refusal::BlockSizeRequired,
            0x8000_0009 => Refusal::TooBig,
            _ => Refusal::Other(kind),
        }
    }
}

impl fmt::Display for Refusal {
    fn fmt<W: fmt::Write>(&self, f: &mut fmt::Formatter<W>) -> fmt::Result {
        match self {
            Refusal::Policy => f.write_str("the server's policy forbids it"),
            Refusal::Invalid => f.write_str("the server finds the request invalid"),
            Refusal::Platform => f.write_str("the server's platform doesn't support it"),
            Refusal::TlsRequired => f.write_str("the server requires TLS"),
            Refusal::Unknown => f.write_str("the server has no such export"),
            Refusal::Shutdown => f.write_str("the server is shutting down"),
            Refusal::BlockSizeRequired => f.write_str("the server requires a block size"),
            Refusal::TooBig => f.write_str("the server finds the request too big"),
            Refusal::Other(kind) => write!(f, "the server's error {kind:#x}"),
        }
    }
}
