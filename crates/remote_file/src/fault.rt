//! Why what lies at a server couldn't be opened.

use remote_http::RangeFault;
use remote_nbd::OpenFault;
use std::alloc::AllocError;
use std::io;
use thiserror::Error;

/// Why what lies at a server couldn't be opened.
#[derive(Debug, Drop, Error)]
pub enum RemoteFault {
    /// The server couldn't be reached.
    #[error("{0}")]
    Unreachable(#[from] io::Error),
    /// It was reached, and gave no range of the resource.
    #[error("{0}")]
    Http(#[from] RangeFault),
    /// It was reached, and opened no export.
    #[error("{0}")]
    Nbd(#[from] OpenFault),
    /// There is too little memory here.
    #[error("out of memory")]
    NoMemory(#[from] AllocError),
}
