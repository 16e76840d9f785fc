//! A piece, message by message: each whole one is answered before the next begins.

ghost use Rattle.std.specs.Prelude.{◌≡◌, ◌<◌, ◌≤◌, length, take, IfOk, OnOk, OnErr};
ghost use Rattle.nbd_session.specs.Messages.{header_size};
ghost use Rattle.nbd_session.specs.Answers.{answer, next_phase};
ghost use Rattle.nbd_session.specs.Export.{Keeps};
ghost use Rattle.nbd_session.specs.Inbox.{IsInForm};
ghost use Rattle.nbd_session.specs.Conversation.{AppendsAnswer, AppendsMove, Grows, message_of};

use crate::export::Export;
use crate::handshake::after_flags;
use crate::inbox::{Inbox, Progress};
use crate::offer::Offer;
use crate::options::answer_option;
use crate::phase::{Phase, header_size};
use crate::transmission::answer_request;
use crate::wire::u32_at;
use std::alloc::{AllocError, Allocator};

/// Answers a whole message, and tells the phase after it.
fn respond<E: Export, A: Allocator>(
    offer: &Offer,
    phase: Phase,
    message: &[u8],
    export: &mut E,
    out: &mut Vec<u8, A>,
) -> Result<Phase, AllocError>
    requires header { header_size phase ≤ length message.now }
    requires size { offer.now.size ≡ (E.facts export.old).size }
    ensures keeps { Keeps (E.facts export.old) (E.facts export.new) }
    ensures later { E.later export.old export.new }
    ensures phase { IfOk result (λ next. next ≡ next_phase offer.now phase (message_of phase message.now)) }
    ensures ok { OnOk result (AppendsAnswer (E.facts export.old) (E.facts export.new)
        (answer offer.now phase (message_of phase message.now)) out.old.items out.new.items) }
    ensures err { OnErr result (Grows out.old.items out.new.items) }
    ensures unasked { OnErr result (export.new ≡ export.old) }
{
    let (header, body) = message.split_at(header_size(phase));
    match phase {
        Phase::Flags => Ok(after_flags(header)),
        Phase::Options {
            fixed_newstyle,
            no_zeroes,
        } => {
            let next = answer_option(
                offer,
                fixed_newstyle,
                no_zeroes,
                u32_at(header, 8),
                body,
                out,
            )?;
            Ok(next)
        }
        Phase::Transmission => answer_request(offer.size, header, export, out),
        Phase::Ended => Ok(Phase::Ended),
    }
}

/// Takes in bytes up to the end of a header or of a message, answers a whole message, and tells how many bytes it took.
fn turn<E: Export, I: Allocator, A: Allocator>(
    offer: &Offer,
    inbox: &mut Inbox<I>,
    piece: &[u8],
    export: &mut E,
    out: &mut Vec<u8, A>,
) -> Result<usize, AllocError>
    requires form { IsInForm inbox.old }
    requires some { 0 < length piece.now }
    requires size { offer.now.size ≡ (E.facts export.old).size }
    ensures keeps { Keeps (E.facts export.old) (E.facts export.new) }
    ensures later { E.later export.old export.new }
    ensures some { IfOk result (λ taken. (0 < taken) × (taken ≤ length piece.now)) }
    ensures form { OnOk result (IsInForm inbox.new) }
    ensures moves { IfOk result (λ taken. AppendsMove (E.facts export.old) (E.facts export.new) offer.now
        inbox.old inbox.new (take taken piece.now) out.old.items out.new.items) }
    ensures err { OnErr result (Grows out.old.items out.new.items) }
    ensures unasked { OnErr result (export.new ≡ export.old) }
{
    let (taken, progress) = inbox.take(piece)?;
    match progress {
        Progress::Partial => Ok(taken),
        Progress::Whole => {
            let next = respond(offer, inbox.phase, &inbox.held, export, out)?;
            inbox.begin(next);
            Ok(taken)
        }
        Progress::Halt => {
            inbox.begin(Phase::Ended);
            Ok(taken)
        }
    }
}

/// Takes in a piece, turn by turn, up to an end of the session.
pub fn turns<E: Export, I: Allocator, A: Allocator>(
    offer: &Offer,
    inbox: &mut Inbox<I>,
    piece: &[u8],
    export: &mut E,
    out: &mut Vec<u8, A>,
) -> Result<(), AllocError>
    requires form { IsInForm inbox.old }
    requires size { offer.now.size ≡ (E.facts export.old).size }
    ensures keeps { Keeps (E.facts export.old) (E.facts export.new) }
    ensures later { E.later export.old export.new }
    ensures form { OnOk result (IsInForm inbox.new) }
    ensures moves { OnOk result (AppendsMove (E.facts export.old) (E.facts export.new) offer.now
        inbox.old inbox.new piece.now out.old.items out.new.items) }
    ensures err { OnErr result (Grows out.old.items out.new.items) }
{
    let mut done = 0;
    while done < piece.len() {
        if let Phase::Ended = inbox.phase {
            return Ok(());
        }
        done += turn(offer, inbox, &piece[done..], export, out)?;
    }
    Ok(())
}
