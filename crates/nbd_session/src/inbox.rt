//! The message that has begun to come.

ghost use Rattle.std.specs.Prelude.{◌≡◌, ◌<◌, ◌≤◌, ◌++◌, ℕ, List, [], length, take, IfOk, OnOk};
ghost use Rattle.nbd_session.specs.Inbox.{IsInForm, LeavesForm, Progressed, Waits, with_body};
ghost use Rattle.nbd_session.specs.Messages.{header_size};

use crate::phase::{Phase, body_size, header_size};
use std::alloc::{AllocError, Allocator};

/// The phase, and what has come of the message that it awaits.
///
/// At most one message's header is held and, of an option, its data: 16 + 65,536 bytes. A WRITE's payload is counted
/// off by `missing` and never held.
#[derive(Drop)]
pub struct Inbox<A: Allocator> {
    pub phase: Phase,
    pub held: Vec<u8, A>,
    /// The bytes of the message's body that are still to come, once its header is whole.
    pub missing: u32,
}

/// How far a message has come.
#[derive(Clone, Copy, Debug, Drop, PartialEq, Eq)]
pub enum Progress {
    /// More bytes are to come.
    Partial,
    /// It is whole.
    Whole,
    /// Its header ends the session.
    Halt,
}

/// Holds bytes of a body, unless it is a payload.
fn keep<A: Allocator>(phase: Phase, held: &mut Vec<u8, A>, bytes: &[u8]) -> Result<(), AllocError>
    ensures held { OnOk result (held.new.items ≡ with_body phase held.old.items bytes.now) }
    ensures len { OnOk result (length held.old.items ≤ length held.new.items) }
{
    match phase {
        Phase::Transmission => Ok(()),
        Phase::Flags | Phase::Options { .. } | Phase::Ended => held.extend_from_slice(bytes),
    }
}

impl<A: Allocator> Inbox<A> {
    /// Takes in bytes of a header, up to its end, and tells how many.
    fn take_header(&mut self, piece: &[u8]) -> Result<(usize, Progress), AllocError>
        requires form { IsInForm self.old }
        requires header { self.old.missing ≡ 0 }
        requires some { 0 < length piece.now }
        ensures phase { self.new.phase ≡ self.old.phase }
        ensures some { IfOk result (λ r. (0 < r.0) × (r.0 ≤ length piece.now)) }
        ensures moved { IfOk result (λ r. (unfinished : List ℕ) → Waits self.old unfinished →
            Progressed self.new r.1 (unfinished ++ take r.0 piece.now)) }
        ensures form { IfOk result (λ r. LeavesForm self.new r.1) }
    {
        let size = header_size(self.phase);
        let taken = (size - self.held.len()).min(piece.len());
        self.held.extend_from_slice(&piece[..taken])?;
        if self.held.len() < size {
            return Ok((taken, Progress::Partial));
        }
        match body_size(self.phase, &self.held) {
            None => Ok((taken, Progress::Halt)),
            Some(0) => Ok((taken, Progress::Whole)),
            Some(n) => {
                self.missing = n;
                Ok((taken, Progress::Partial))
            }
        }
    }

    /// Takes in bytes of a body, up to its end, and tells how many.
    fn take_body(&mut self, piece: &[u8]) -> Result<(usize, Progress), AllocError>
        requires form { IsInForm self.old }
        requires body { 0 < self.old.missing }
        requires some { 0 < length piece.now }
        ensures phase { self.new.phase ≡ self.old.phase }
        ensures some { IfOk result (λ r. (0 < r.0) × (r.0 ≤ length piece.now)) }
        ensures moved { IfOk result (λ r. (unfinished : List ℕ) → Waits self.old unfinished →
            Progressed self.new r.1 (unfinished ++ take r.0 piece.now)) }
        ensures form { IfOk result (λ r. LeavesForm self.new r.1) }
    {
        let taken = (self.missing as usize).min(piece.len());
        keep(self.phase, &mut self.held, &piece[..taken])?;
        self.missing -= taken as u32;
        if self.missing > 0 {
            return Ok((taken, Progress::Partial));
        }
        Ok((taken, Progress::Whole))
    }

    /// Takes in bytes up to the end of a header or of a message, and tells how many.
    pub fn take(&mut self, piece: &[u8]) -> Result<(usize, Progress), AllocError>
        requires form { IsInForm self.old }
        requires some { 0 < length piece.now }
        ensures phase { self.new.phase ≡ self.old.phase }
        ensures some { IfOk result (λ r. (0 < r.0) × (r.0 ≤ length piece.now)) }
        ensures moved { IfOk result (λ r. (unfinished : List ℕ) → Waits self.old unfinished →
            Progressed self.new r.1 (unfinished ++ take r.0 piece.now)) }
        ensures form { IfOk result (λ r. LeavesForm self.new r.1) }
    {
        if self.missing > 0 {
            self.take_body(piece)
        } else {
            self.take_header(piece)
        }
    }

    /// Awaits the next message.
    pub fn begin(&mut self, phase: Phase)
        ensures phase { self.new.phase ≡ phase }
        ensures waits { Waits self.new [] }
        ensures form { IsInForm self.new }
    {
        self.phase = phase;
        self.held.clear();
        self.missing = 0;
    }
}
