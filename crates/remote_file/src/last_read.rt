//! Whether reads follow one another.

ghost use Rattle.std.specs.Prelude.{◌≡◌, ◌+◌, ◌<◌, ◌^◌, IsTrue};

/// Where the last read ended, and how many bytes it had; at first none did.
#[derive(Clone, Copy, Debug)]
pub(crate) struct LastRead {
    end: u64,
    len: usize,
}

impl LastRead {
    /// No read yet.
    pub(crate) fn none() -> LastRead {
        LastRead { end: 0, len: 0 }
    }

    /// Takes note of a read, and says whether it began where the one before ended and was as long.
    pub(crate) fn repeats(&mut self, at: u64, len: usize) -> bool
        ensures follows { IsTrue result → self.old.end ≡ at }
        ensures alike { IsTrue result → self.old.len ≡ len }
        ensures end { at + len < 2 ^ 64 → self.new.end ≡ at + len }
        ensures len { self.new.len ≡ len }
    {
        let is_repeated = self.end == at && self.len == len;
        self.end = at.saturating_add(len as u64);
        self.len = len;
        is_repeated
    }
}
