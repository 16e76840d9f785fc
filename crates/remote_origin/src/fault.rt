//! Why what a URL names couldn't be opened.

use remote_file::RemoteFault;
use remote_http::RangeFault;
use remote_nbd::OpenFault;
use remote_url::NameFault;
use std::alloc::AllocError;
use std::io::ErrorKind;
use thiserror::Error;

/// Why what a URL names couldn't be opened.
#[derive(Debug, Drop, Error)]
pub enum OriginFault {
    /// It is a path.
    #[error("a path names no server")]
    Path,
    /// A name in it stands for no text.
    #[error("{0}")]
    Name(#[from] NameFault),
    /// The server, or what it answered.
    #[error("{0}")]
    Remote(#[from] RemoteFault),
    /// There is too little memory here.
    #[error("out of memory")]
    NoMemory(#[from] AllocError),
}

impl OriginFault {
    /// Whether it is want of memory here. A server's own is none.
    pub fn is_no_memory(&self) -> bool {
        match self {
            OriginFault::NoMemory(_) => true,
            OriginFault::Name(NameFault::NoMemory) => true,
            OriginFault::Remote(fault) => is_want_of_memory(fault),
            _ => false,
        }
    }
}

fn is_want_of_memory(fault: &RemoteFault) -> bool {
    match fault {
        RemoteFault::NoMemory(_) => true,
        RemoteFault::Http(RangeFault::NoMemory(_)) => true,
        RemoteFault::Nbd(OpenFault::NoMemory(_)) => true,
        RemoteFault::Unreachable(error) => error.kind() == ErrorKind::OutOfMemory,
        _ => false,
    }
}
