//! Reads a plan from a journal's bytes. Any bytes may stand there: a stop may have cut the journal anywhere.
ghost use Rattle.std.specs.Prelude.{◌≡◌, ◌++◌, [], ◌∷◌, List, ℕ, true, false, None, Some, IfOk, IfSome, IfNone};
ghost use Rattle.verity_journal.specs.Journal.{read_number, read_bytes, read_change, read_changes, read_side, read_plan};
ghost use Rattle.verity_journal.specs.Journal.{gated_plan, plan_of};

use crate::head::behind_head;
use crate::{Change, Plan, Side};
use std::alloc::{AllocError, Allocator};
use std::marker::Model;

/// The bytes that are still to be read.
#[derive(Drop)]
pub struct Reader<'a> {
    rest: &'a [u8],
}

impl<'a> Model for Reader<'a> {
    ghost Value = { List ℕ };

    ghost view = { λ reader. reader.rest.now };
}

impl<'a> Reader<'a> {
    /// All of these bytes.
    pub fn new(rest: &'a [u8]) -> Reader<'a>
        ensures { result ≡ rest.now }
    {
        Reader { rest }
    }

    /// The next number.
    pub fn number(&mut self) -> Option<u64>
        ensures some { IfSome result (λ n. read_number self.old ≡ Some (n, self.new)) }
        ensures none { IfNone result (read_number self.old ≡ None) }
    {
        let (front, rest) = self.rest.split_first_chunk::<8>()?;
        self.rest = rest;
        Some(u64::from_le_bytes(*front))
    }

    /// The next bytes.
    pub fn bytes(&mut self, n: u64) -> Option<&'a [u8]>
        ensures some { IfSome result (λ bytes. read_bytes n self.old ≡ Some (bytes.now, self.new)) }
        ensures none { IfNone result (read_bytes n self.old ≡ None) }
    {
        if (self.rest.len() as u64) < n {
            return None;
        }
        let (front, rest) = self.rest.split_at(n as usize);
        self.rest = rest;
        Some(front)
    }
}

/// The next change, which is added to those before it; false where there is none that lies below the length.
fn parse_change<A: Allocator + Copy>(
    alloc: A,
    reader: &mut Reader,
    len: u64,
    changes: &mut Vec<Change<A>, A>,
) -> Result<bool, AllocError>
    ensures read { IfOk result (λ more. more ≡ true → (change : ℕ × List ℕ)
        × (read_change len reader.old ≡ Some (change, reader.new)) × (changes.new.items ≡ changes.old.items ++ change ∷ [])) }
    ensures none { IfOk result (λ more. more ≡ false → read_change len reader.old ≡ None) }
{
    let Some(at) = reader.number() else {
        return Ok(false);
    };
    let Some(size) = reader.number() else {
        return Ok(false);
    };
    let Some(bytes) = reader.bytes(size) else {
        return Ok(false);
    };
    if len < size || len - size < at {
        return Ok(false);
    }
    changes.push(Change::new(at, bytes.to_vec(alloc)?))?;
    Ok(true)
}

/// So many changes.
fn parse_changes<A: Allocator + Copy>(
    alloc: A,
    reader: &mut Reader,
    len: u64,
    count: u64,
) -> Result<Option<Vec<Change<A>, A>>, AllocError>
    ensures some { IfOk result (λ r. IfSome r (λ changes. read_changes len count reader.old ≡ Some (changes.items, reader.new))) }
    ensures none { IfOk result (λ r. IfNone r (read_changes len count reader.old ≡ None)) }
{
    let mut changes = Vec::new(alloc);
    for _ in 0..count {
        if !parse_change(alloc, reader, len, &mut changes)? {
            return Ok(None);
        }
    }
    Ok(Some(changes))
}

/// The next side.
fn parse_side<A: Allocator + Copy>(
    alloc: A,
    reader: &mut Reader,
) -> Result<Option<Side<A>>, AllocError>
    ensures some { IfOk result (λ r. IfSome r (λ side. read_side reader.old ≡ Some (side, reader.new))) }
    ensures none { IfOk result (λ r. IfNone r (read_side reader.old ≡ None)) }
{
    let Some(keep) = reader.number() else {
        return Ok(None);
    };
    let Some(len) = reader.number() else {
        return Ok(None);
    };
    let Some(count) = reader.number() else {
        return Ok(None);
    };
    if len < keep {
        return Ok(None);
    }
    match parse_changes(alloc, reader, len, count)? {
        Some(changes) => Ok(Some(Side::new(keep, len, changes))),
        None => Ok(None),
    }
}

/// The plan that bytes begin with; none where no whole one does. It takes as much memory as the plan's names and changes.
pub fn parse<A: Allocator + Copy>(alloc: A, bytes: &[u8]) -> Result<Option<Plan<A>>, AllocError>
    ensures some { IfOk result (λ r. IfSome r (λ plan. read_plan bytes.now ≡ Some plan)) }
    ensures none { IfOk result (λ r. IfNone r (read_plan bytes.now ≡ None)) }
{
    let mut reader = Reader::new(bytes);
    let Some(size) = reader.number() else {
        return Ok(None);
    };
    let Some(names) = reader.bytes(size) else {
        return Ok(None);
    };
    let names = names.to_vec(alloc)?;
    let Some(on_data) = parse_side(alloc, &mut reader)? else {
        return Ok(None);
    };
    let Some(on_hash) = parse_side(alloc, &mut reader)? else {
        return Ok(None);
    };
    Ok(Some(Plan::new(names, on_data, on_hash)))
}

/// The plan of a journal, where its gate is open and a whole one stands behind it. A gate is closed where its byte is 0. None where the
/// bytes are no journal's.
pub fn parse_journal<A: Allocator + Copy>(
    alloc: A,
    journal: &[u8],
) -> Result<Option<Plan<A>>, AllocError>
    ensures some { IfOk result (λ r. IfSome r (λ plan. plan_of journal.now ≡ Some plan)) }
    ensures none { IfOk result (λ r. IfNone r (plan_of journal.now ≡ None)) }
{
    match behind_head(journal) {
        Some(gated) => parse_gated(alloc, gated),
        None => Ok(None),
    }
}

/// The plan of what stands behind a journal's head, where the gate is open and a whole one stands behind it.
#[tactic(auto, using(crate::proofs::Gates::opened_is))]
fn parse_gated<A: Allocator + Copy>(alloc: A, gated: &[u8]) -> Result<Option<Plan<A>>, AllocError>
    ensures some { IfOk result (λ r. IfSome r (λ plan. gated_plan gated.now ≡ Some plan)) }
    ensures none { IfOk result (λ r. IfNone r (gated_plan gated.now ≡ None)) }
{
    let [gate, rest @ ..] = gated else {
        return Ok(None);
    };
    if *gate == 0 {
        return Ok(None);
    }
    match parse(alloc, rest)? {
        Some(plan) => Ok(Some(plan)),
        None => Ok(None),
    }
}
