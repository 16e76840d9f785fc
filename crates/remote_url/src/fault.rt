//! Why a text is no URL.

use std::alloc::AllocError;
use thiserror::Error;

/// Why a text that begins like a URL is none that is understood.
#[derive(Clone, Copy, Debug, PartialEq, Eq, Error)]
pub enum UrlFault {
    #[error("no host")]
    NoHost,
    #[error("a host that is neither a name nor an address")]
    Host,
    #[error("a port that isn't a number up to 65535")]
    Port,
    #[error("no path behind the host")]
    NoPath,
    #[error("a path with a byte that isn't visible ASCII, or with #")]
    Path,
    #[error("an export's name with ? or #")]
    Name,
    #[error("a host where a socket is named")]
    HostOfSocket,
    #[error("no ?socket=PATH")]
    NoSocket,
    #[error("a socket's path with ? or #")]
    Socket,
}

/// Why what is escaped can't be had.
#[derive(Clone, Copy, Debug, PartialEq, Eq, Error)]
pub enum NameFault {
    #[error("a name that isn't UTF-8")]
    NotUtf8,
    #[error("out of memory")]
    NoMemory,
}

impl From<AllocError> for NameFault {
    fn from(_: AllocError) -> NameFault {
        NameFault::NoMemory
    }
}
