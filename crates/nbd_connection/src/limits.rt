//! What clients may take of a server.

ghost use Rattle.std.specs.Prelude.{◌≡◌, None, IsSomeAnd};
ghost use Rattle.std.specs.Duration.{as_nanos};

use std::time::Duration;

/// The bytes of a mebibyte.
const MEBIBYTE: u64 = 1 << 20;

/// After how many seconds a client that takes nothing is left, where another one waits for memory.
const STALL_SECONDS: u64 = 30;

/// How many bytes all pending replies may have; after which time a silent client is left, if ever; and after which time, if ever, a
/// client is left that takes nothing of a pending reply while another one waits for memory.
#[derive(Clone, Copy, Debug)]
pub struct Limits {
    pub pending: u64,
    pub idle: Option<Duration>,
    pub stall: Option<Duration>,
}

impl Limits {
    /// 128 MiB; no client is left for its silence; and one that takes nothing is left after 30 seconds, where another one waits.
    pub fn usual() -> Limits
        ensures pending { result.pending ≡ 134217728 }
        ensures idle { result.idle ≡ None }
        ensures stall { IsSomeAnd result.stall (λ stall. as_nanos stall ≡ 30000000000) }
    {
        Limits {
            pending: 128 * MEBIBYTE,
            idle: None,
            stall: Some(Duration::from_secs(STALL_SECONDS)),
        }
    }
}
