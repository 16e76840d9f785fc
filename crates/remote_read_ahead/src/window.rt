//! A window of a file.

ghost use Rattle.std.specs.Prelude.{◌≡◌, ◌+◌, ◌-◌, ◌<◌, ◌≤◌, true, length, take, drop};
ghost use Rattle.std.specs.Prelude.{OnOk, OnErr, IfOk, IfSome, IsTrue, All, slice_index_or};
ghost use Rattle.remote_read_ahead.specs.Held.{Holds, Spans, SpansAt, IsHeld, IsEmpty};
ghost use Rattle.verity_store.specs.RawFile.{Reads};

use std::alloc::{AllocError, Global};
use std::io;
use verity_store::RawFile;

/// Bytes of a file from an offset on; none at first.
#[derive(Drop)]
pub struct Window {
    pub start: u64,
    pub bytes: Vec<u8>,
}

impl Window {
    /// An empty window, which takes no memory.
    pub fn new(alloc: Global) -> Window
        ensures { IsEmpty result }
    {
        Window {
            start: 0,
            bytes: Vec::new(alloc),
        }
    }

    /// Whether it has so many bytes from an offset on.
    pub fn spans(&self, at: u64, count: usize) -> bool
        ensures { IsTrue result → Spans self.now at count }
    {
        let filled = self.bytes.len() as u64;
        at >= self.start && at - self.start <= filled && count as u64 <= filled - (at - self.start)
    }

    /// Copies bytes that it has.
    pub fn copy(&self, at: u64, out: &mut [u8])
        requires { Spans self.now at (length out.old) }
        ensures { out.new ≡ take (length out.new) (drop (at - self.now.start) self.now.bytes.items) }
    {
        let from = (at - self.start) as usize;
        out.copy_from_slice(&self.bytes[from..from + out.len()]);
    }

    /// Empties it, and reads so many bytes from an offset on into it; whether it has them now, or is empty.
    pub fn fill<F: RawFile>(&mut self, file: &mut F, at: u64, count: usize) -> bool
        ensures held { IsHeld (F.bytes file.old) self.new }
        ensures bytes { F.bytes file.new ≡ F.bytes file.old }
        ensures same { F.may_refuse file.new ≡ F.may_refuse file.old }
    {
        self.start = at;
        self.bytes.clear();
        if self.bytes.resize(count, 0).is_err() {
            self.bytes.clear();
            return false;
        }
        if read_all(file, at, &mut self.bytes).is_err() {
            self.bytes.clear();
            return false;
        }
        true
    }
}

/// Reads as many bytes as a list has from an offset on into it.
fn read_all<F: RawFile>(file: &mut F, at: u64, bytes: &mut Vec<u8>) -> io::Result<()>
    ensures given { OnOk result (Reads (F.bytes file.old) at bytes.new.items) }
    ensures len { length bytes.new.items ≡ length bytes.old.items }
    ensures bytes { F.bytes file.new ≡ F.bytes file.old }
    ensures same { F.may_refuse file.new ≡ F.may_refuse file.old }
{
    file.read_exact_at(at, bytes)
}

/// The first window that has so many bytes from an offset on.
pub fn find_window(windows: &[Window], at: u64, count: usize) -> Option<usize>
    ensures within { IfSome result (λ index. index < length windows.now) }
    ensures spans { IfSome result (λ index. SpansAt windows.now index at count) }
{
    'windows: for (index, window) in windows.iter().enumerate() {
        if window.spans(at, count) {
            return Some(index);
        }
    }
    None
}

/// Fills a window of a list; whether it has those bytes now, or is empty.
pub fn refill<F: RawFile>(
    windows: &mut Vec<Window>,
    index: usize,
    file: &mut F,
    at: u64,
    count: usize,
) -> bool
    requires held { All (IsHeld (F.bytes file.old)) windows.old.items }
    ensures held { All (IsHeld (F.bytes file.old)) windows.new.items }
    ensures bytes { F.bytes file.new ≡ F.bytes file.old }
    ensures same { F.may_refuse file.new ≡ F.may_refuse file.old }
{
    if index >= windows.len() {
        return false;
    }
    fill_at(windows, index, file, at, count)
}

/// The same of a slice.
fn fill_at<F: RawFile>(
    windows: &mut [Window],
    index: usize,
    file: &mut F,
    at: u64,
    count: usize,
) -> bool
    requires held { All (IsHeld (F.bytes file.old)) windows.old }
    requires within { index < length windows.old }
    ensures held { All (IsHeld (F.bytes file.old)) windows.new }
    ensures bytes { F.bytes file.new ≡ F.bytes file.old }
    ensures same { F.may_refuse file.new ≡ F.may_refuse file.old }
{
    windows[index].fill(file, at, count)
}

/// So many windows, each empty.
pub fn empty_windows(alloc: Global, count: usize) -> Result<Vec<Window>, AllocError>
    ensures { IfOk result (λ windows. All IsEmpty windows.items) }
{
    let mut windows = Vec::with_capacity(alloc, count)?;
    'windows: for _window in 0..count {
        windows.push(Window::new(alloc))?;
    }
    Ok(windows)
}
