//! A volume's files, as a person watches them being read.
ghost use Rattle.std.specs.Prelude.{◌≡◌, ◌≢◌, ◌&&◌, not, true, false, None};

use os_progress::Progress;
use std::io::Eprint;
use std::time::Clock;
use verity_store::BlockStore;

/// Whether someone looks on: standard error is a terminal, and nothing else was asked for.
pub fn is_watched(is_quiet: bool, is_terminal: bool) -> bool
    ensures { result ≡ not is_quiet && is_terminal }
{
    !is_quiet && is_terminal
}

/// A meter of the bytes of a store that is read whole, where someone looks on.
pub fn progress_of<'a, R: Clock + Eprint + AllocGlobal, S: BlockStore>(
    rt: &'a R,
    is_watched: bool,
    store: &S,
) -> Option<Progress<'a, R>>
    ensures unwatched { is_watched ≡ false → result ≡ None }
    ensures watched { is_watched ≡ true → result ≢ None }
{
    if !is_watched {
        return None;
    }
    let bytes = store.len().saturating_mul(store.block_size() as u64);
    Some(Progress::new(rt, bytes))
}

/// Clears the line of a meter, which prints no more.
pub fn end_progress<'a, R: Clock + Eprint + AllocGlobal>(progress: Option<&Progress<'a, R>>) {
    if let Some(progress) = progress {
        progress.end();
    }
}
