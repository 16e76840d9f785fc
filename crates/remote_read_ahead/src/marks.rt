//! Where reads ended, and which of them follow one another.

ghost use Rattle.std.specs.Prelude.{◌<◌, IfSome};

/// How many windows there are.
pub const WINDOWS: usize = 8;

/// How far the first window of a reader reaches, in bytes.
const FIRST_REACH: usize = 131_072;

/// No read ends here.
const NOWHERE: u64 = u64::MAX;

/// A reader in sequence, which has a window.
#[derive(Clone, Copy, Debug)]
struct Mark {
    /// Where its last read ended.
    next: u64,
    /// How far its next window reaches.
    reach: usize,
    /// When it read last, as `turn` counts.
    used: u64,
}

/// The readers that have windows, and where the last reads of all others ended.
#[derive(Clone, Copy, Debug)]
pub struct Marks {
    marks: [Mark; WINDOWS],
    ends: [u64; WINDOWS],
    /// How many reads there were.
    turn: u64,
}

impl Marks {
    /// No reader yet; the first read follows where it begins at the first byte.
    pub fn new() -> Marks {
        let mark = Mark {
            next: NOWHERE,
            reach: 0,
            used: 0,
        };
        Marks {
            marks: [mark; WINDOWS],
            ends: [0; WINDOWS],
            turn: 0,
        }
    }

    /// The window of the reader whose last read ended here; where it has none yet, the one that was used least recently becomes its own.
    pub fn reader_at(&mut self, at: u64) -> Option<usize>
        ensures { IfSome result (λ index. index < 8) }
    {
        if let Some(index) = self.marks.iter().position(|mark| mark.next == at) {
            return Some(index);
        }
        if !self.ends.contains(&at) {
            return None;
        }
        let index = self.least_used();
        self.begin_again(index);
        Some(index)
    }

    /// The window that was used least recently.
    fn least_used(&self) -> usize
        ensures { result < 8 }
    {
        let mut least = 0;
        'marks: for (index, mark) in self.marks.iter().enumerate() {
            if mark.used < self.marks[least].used {
                least = index;
            }
        }
        least
    }

    /// How far the next window of a reader reaches: twice as far as the last one, at most this far.
    pub fn reach(&mut self, index: usize, most: usize) -> usize {
        let Some(mark) = self.marks.get_mut(index) else {
            return 0;
        };
        let reach = mark.reach.max(FIRST_REACH).min(most);
        mark.reach = reach.saturating_mul(2);
        reach
    }

    /// The window of a reader couldn't be fetched: it begins with the first reach again.
    pub fn begin_again(&mut self, index: usize) {
        if let Some(mark) = self.marks.get_mut(index) {
            mark.reach = 0;
        }
    }

    /// A read of the reader that has this window ended here.
    pub fn read_by(&mut self, index: usize, next: u64) {
        self.turn = self.turn.saturating_add(1);
        let turn = self.turn;
        if let Some(mark) = self.marks.get_mut(index) {
            mark.next = next;
            mark.used = turn;
        }
    }

    /// A read that follows none ended here.
    pub fn read_elsewhere(&mut self, next: u64) {
        self.turn = self.turn.saturating_add(1);
        let index = (self.turn % WINDOWS as u64) as usize;
        if let Some(end) = self.ends.get_mut(index) {
            *end = next;
        }
    }
}
