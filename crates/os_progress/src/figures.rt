//! The numbers of a line of progress.
ghost use Rattle.std.specs.Prelude.{◌≡◌, ◌≤◌, ◌<◌, ◌↔◌, IsTrue};
ghost use Rattle.os_progress.specs.Progress.{percent, speed, seconds_left, IsDue};

/// How many hundredths of the whole are done, rounded down.
pub fn percent(done: u64, total: u64) -> u128
    requires { 0 < total }
    ensures { result ≡ percent done total }
{
    done as u128 * 100 / total as u128
}

/// Megabytes a second, rounded down.
pub fn speed(done: u64, milliseconds: u64) -> u128
    requires { 0 < milliseconds }
    ensures { result ≡ speed done milliseconds }
{
    done as u128 / (milliseconds as u128 * 1000)
}

/// After how many seconds the rest is done at the speed so far, rounded down.
pub fn seconds_left(done: u64, total: u64, milliseconds: u64) -> u128
    requires some { 0 < done }
    requires within { done ≤ total }
    ensures { result ≡ seconds_left done total milliseconds }
{
    let rest = total - done;
    rest as u128 * milliseconds as u128 / (done as u128 * 1000)
}

/// Whether a line is printed so many milliseconds after the beginning, where the last one was printed at `last`.
pub fn is_due(milliseconds: u64, last: u64) -> bool
    ensures { IsTrue result ↔ IsDue milliseconds last }
{
    1000 <= milliseconds && 200 <= milliseconds.saturating_sub(last)
}
