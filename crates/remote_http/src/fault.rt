//! Why a server gave no range.

use http::StatusCode;
use std::alloc::AllocError;
use std::io;
use thiserror::Error;

/// Why a server gave no range. The connection is of no use then.
#[derive(Debug, Drop, Error)]
pub enum RangeFault {
    /// The connection failed, or ended early.
    #[error("{0}")]
    Connection(#[from] io::Error),
    /// There is too little memory here.
    #[error("out of memory")]
    NoMemory(#[from] AllocError),
    /// What came isn't the head of an HTTP/1 response, or one of more than 16 KiB or 64 fields.
    #[error("the server doesn't speak HTTP/1")]
    NotHttp,
    /// A status that is no range, no whole resource and no redirection.
    #[error("{0}")]
    Status(StatusCode),
    /// A redirection, and its Location where that is visible ASCII, else nothing.
    #[error("{0}: the resource is at {1}")]
    Redirect(StatusCode, String),
    /// The whole resource in place of the range.
    #[error("the server doesn't answer ranges")]
    NoRanges,
    /// The range, and not how many bytes the resource has.
    #[error("the server doesn't say how long the resource is")]
    NoLength,
    /// Another range than the one that was asked for, or several.
    #[error("the server gives another range than the one asked for")]
    OtherRange,
    /// A body of another length, or one in chunks or coded.
    #[error("the server gives the range in another form than asked for")]
    OtherBody,
}
