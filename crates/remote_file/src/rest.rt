//! Whether a server is asked.

ghost use Rattle.std.specs.Prelude.{◌≡◌, ◌+◌, ◌≤◌, min};
ghost use Rattle.std.specs.Duration.{as_nanos, max_nanos};
ghost use Rattle.remote_file.specs.Waiting.{may_ask};

use std::time::Duration;

/// After so many failures in a row a server isn't asked for a while.
const PATIENT_FAILURES: u32 = 3;

/// The failures in a row, and until when a server isn't asked after three of them. Times are those of the monotonic clock.
#[derive(Clone, Copy, Debug)]
pub struct Rest {
    failures: u32,
    until: Duration,
}

impl Rest {
    /// No failure yet.
    pub fn new() -> Rest
        ensures { result.failures ≡ 0 }
    {
        Rest {
            failures: 0,
            until: Duration::ZERO,
        }
    }

    /// Whether the server is asked at this time.
    pub fn may_ask(&self, now: Duration) -> bool
        ensures { result ≡ may_ask self.now (as_nanos now) }
    {
        self.failures < PATIENT_FAILURES || now.checked_sub(self.until).is_some()
    }

    /// The server answered.
    pub fn answered(&mut self)
        ensures { self.new.failures ≡ 0 }
    {
        self.failures = 0;
    }

    /// The server failed at this time; after three times it rests as long as it is waited for.
    pub fn failed(&mut self, now: Duration, timeout: Duration)
        ensures counted { self.new.failures ≡ min (self.old.failures + 1) 4294967295 }
        ensures rests { as_nanos self.new.until ≡ min (as_nanos now + as_nanos timeout) max_nanos }
    {
        self.failures = self.failures.saturating_add(1);
        self.until = now.saturating_add(timeout);
    }
}
