//! Servers, and the devices that lie there.

ghost use Rattle.std.specs.Prelude.{◌≡◌, ℕ, IfOk};
ghost use Rattle.remote_url.specs.declared.source.Source.{Source};

use read_ahead::Prefetch;
use remote_file::Patience;
use remote_origin::{Origin, OriginFault, open_remote};
use remote_url::Source;
use std::net::Net;
use std::time::Clock;

/// Servers that are reached by URLs.
pub trait Servers {
    /// What lies at one.
    type File: Prefetch + Drop;

    /// This was opened where a source says, and had so many bytes.
    ghost reaches: { Self → Source → Self.File → ℕ → Type 0 };

    /// Opens what lies at a server, to be read, and says how many bytes it has.
    ///
    /// # Errors
    ///
    /// `OriginFault`.
    fn reach(&self, source: Source<'_>) -> Result<(Self::File, u64), OriginFault>
        ensures { IfOk result (λ reached. reaches self.now source.entry reached.0 reached.1) };
}

/// The servers of the network.
#[derive(Drop)]
pub struct Network<'a, R> {
    rt: &'a R,
    patience: Patience,
}

impl<'a, R: Net + Clock> Network<'a, R> {
    /// Servers that are waited for so long.
    pub fn new(rt: &'a R, patience: Patience) -> Network<'a, R>
        ensures { result.patience ≡ patience }
    {
        Network { rt, patience }
    }
}

impl<'a, R: Net + Clock + AllocGlobal> Servers for Network<'a, R> {
    ghost use Rattle.remote_origin.specs.Origins.{IsAt};

    type File = Origin<'a, R>;

    ghost reaches = { λ _ source origin _. IsAt source origin };

    fn reach(&self, source: Source<'_>) -> Result<(Origin<'a, R>, u64), OriginFault> {
        open_remote(self.rt, source, self.patience)
    }
}
