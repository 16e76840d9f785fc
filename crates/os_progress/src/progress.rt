//! The meter that prints.

use crate::figures::{is_due, percent, seconds_left, speed};
use crate::watched::Meter;
use std::cell::Cell;
use std::io;
use std::io::Eprint;
use std::time::{Clock, Duration, Instant};

/// After how many bytes the clock is looked at again.
const STEP: u64 = 1 << 16;

/// A line of blanks over the last one.
const CLEARED: &str = "\r                                                                \r";

/// How much of so many bytes was read by now, on standard error: `dalgovuun: 45 %, 512 MB/s, 0:03 left`, over and over in one
/// line, from the first second on and at most five times a second, until all of it was. It takes memory for a line; what can't be
/// printed is passed over.
#[derive(Drop)]
pub struct Progress<'a, R: Clock + Eprint> {
    rt: &'a R,
    total: u64,
    begun: Option<Instant>,
    done: Cell<u64>,
    looked: Cell<u64>,
    last: Cell<u64>,
    is_over: Cell<bool>,
}

impl<'a, R: Clock + Eprint + AllocGlobal> Progress<'a, R> {
    /// Nothing of so many bytes was read. Where there is no clock, nothing is printed.
    pub fn new(rt: &'a R, total: u64) -> Progress<'a, R> {
        Progress {
            rt,
            total,
            begun: Instant::now(rt).ok(),
            done: Cell::new(0),
            looked: Cell::new(0),
            last: Cell::new(0),
            is_over: Cell::new(false),
        }
    }

    /// Clears the line, if one is there, and prints no more.
    pub fn end(&self) {
        self.is_over.set(true);
        if self.last.get() > 0 {
            self.last.set(0);
            let _ = self.rt.eprint(CLEARED);
        }
    }

    /// Prints a line where one is due.
    fn show(&self, done: u64) {
        let Some(begun) = self.begun else {
            return;
        };
        let Ok(elapsed) = begun.elapsed(self.rt) else {
            return;
        };
        let milliseconds = whole_milliseconds(elapsed);
        if is_due(milliseconds, self.last.get()) {
            self.last.set(milliseconds);
            let _ = self.print(done, milliseconds);
        }
    }

    /// Prints a line over the last one.
    fn print(&self, done: u64, milliseconds: u64) -> io::Result<()> {
        if done == 0 || self.total < done || milliseconds == 0 {
            return Ok(());
        }
        let part = percent(done, self.total);
        let speed = speed(done, milliseconds);
        let left = seconds_left(done, self.total, milliseconds);
        let minutes = left / 60;
        let seconds = left % 60;
        let line = format!(in self.rt.alloc();
            "dalgovuun: {part} %, {speed} MB/s, {minutes}:{seconds:02} left"
        )?;
        self.rt.eprint(format!(in self.rt.alloc(); "\r{line:<64}")?)
    }
}

/// The milliseconds of a time, rounded down.
fn whole_milliseconds(time: Duration) -> u64 {
    time.as_secs()
        .saturating_mul(1000)
        .saturating_add(u64::from(time.subsec_millis()))
}

impl<'a, R: Clock + Eprint + AllocGlobal> Meter for Progress<'a, R> {
    fn note(&self, bytes: u64) {
        let done = self.done.get().saturating_add(bytes);
        self.done.set(done);
        if self.is_over.get() {
            return;
        }
        if done >= self.total {
            self.end();
        } else if done.saturating_sub(self.looked.get()) >= STEP {
            self.looked.set(done);
            self.show(done);
        }
    }
}
