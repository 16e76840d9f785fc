//! What was seen of devices at servers, for standard error.

use std::alloc::Global;
use std::cell::RefCell;

/// What was seen of one.
#[derive(Drop)]
struct Note {
    url: String,
    seen: Seen,
}

#[derive(Drop)]
enum Seen {
    /// It was opened, and had so many bytes.
    Len(u64),
    /// It couldn't be opened, for this reason.
    Refused(String),
}

/// What was seen of devices at servers when they were opened: why one couldn't be, or how many bytes it had. Where memory is refused for a
/// note there is none.
#[derive(Drop)]
pub struct Notes {
    alloc: Global,
    notes: RefCell<Vec<Note>>,
}

impl Notes {
    /// None yet.
    pub fn new(alloc: Global) -> Notes {
        Notes {
            alloc,
            notes: RefCell::new(Vec::new(alloc)),
        }
    }

    /// How many bytes a device had, by its URL.
    pub fn len_of(&self, url: &str) -> Option<u64> {
        let notes = self.notes.try_borrow().ok()?;
        let note = notes.iter().find(|note| note.url.as_str() == url)?;
        match &note.seen {
            Seen::Len(len) => Some(*len),
            Seen::Refused(_) => None,
        }
    }

    /// Why a device couldn't be opened, by its URL.
    pub fn reason_for(&self, url: &str) -> Option<String> {
        let notes = self.notes.try_borrow().ok()?;
        let note = notes.iter().find(|note| note.url.as_str() == url)?;
        match &note.seen {
            Seen::Len(_) => None,
            Seen::Refused(reason) => String::from_str(self.alloc, reason.as_str()).ok(),
        }
    }

    /// Notes how many bytes a device has.
    pub fn note_len(&self, url: &str, len: u64) {
        self.note(url, Seen::Len(len));
    }

    /// Notes why a device can't be opened.
    pub fn note_refusal<E: std::fmt::Display>(&self, url: &str, reason: &E) {
        if let Ok(reason) = format!(in self.alloc; "{reason}") {
            self.note(url, Seen::Refused(reason));
        }
    }

    fn note(&self, url: &str, seen: Seen) {
        let Ok(url) = String::from_str(self.alloc, url) else {
            return;
        };
        if let Ok(mut notes) = self.notes.try_borrow_mut() {
            let _ = notes.push(Note { url, seen });
        }
    }
}
