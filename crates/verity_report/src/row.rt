//! The rows of a volume, as a report goes through them.
ghost use Rattle.std.specs.Prelude.{◌≡◌, suc, ◌+◌, ◌^◌, ◌<◌, ◌≤◌, true, false, length, OnOk, IfOk, Some, None};
ghost use Rattle.verity_chain.specs.Table.{height};
ghost use Rattle.verity_report.specs.Report.{unchecked_one};
ghost use Rattle.verity_report.specs.Descent.{blank, known, seen_in, AreRows, IsNamed, IsNoted, IsStep};

use crate::finding::{Finding, Verdict};
use std::alloc::{AllocError, Allocator, Global};
use std::marker::Model;
use verity_chain::{Place, Tree};
use verity_digest::Digest;

/// How many places of a row were looked at; whether the last of them is good, and then its block, where it is a row of hash
/// blocks; and the places that a report names. A contract sees these.
#[derive(Drop)]
pub(crate) struct Row<A: Allocator = Global> {
    seen: u64,
    good: bool,
    block: Vec<u8, A>,
    faults: Vec<(Place, Verdict), A>,
}

impl<A: Allocator> Model for Row<A> {
    ghost use Rattle.verity_report.specs.Descent.{Known};

    ghost Value = { Known };

    ghost view = { λ row. record { seen = row.seen; good = row.good; block = row.block.items; faults = row.faults.items } };
}

impl<A: Allocator + Copy> Row<A> {
    /// A row of which nothing was looked at. It takes memory for a block of `size` bytes.
    pub(crate) fn new(alloc: A, size: usize) -> Result<Self, AllocError>
        ensures { IfOk result (λ row. row ≡ blank size) }
    {
        let block = Vec::from_elem(alloc, 0u8, size)?;
        Ok(Row {
            seen: 0,
            good: false,
            block,
            faults: Vec::new(alloc),
        })
    }
}

impl<A: Allocator> Row<A> {
    /// How many of its places were looked at.
    pub(crate) fn seen(&self) -> u64
        ensures { result ≡ self.now.seen }
    {
        self.seen
    }

    /// Whether the last of these is good.
    pub(crate) fn is_good(&self) -> bool
        ensures { result ≡ self.now.good }
    {
        self.good
    }

    /// The last block that was kept.
    pub(crate) fn block(&self) -> &[u8]
        ensures { result.now ≡ self.now.block }
    {
        self.block.as_slice()
    }

    /// Keeps a copy of a block.
    pub(crate) fn keep(&mut self, block: &[u8])
        requires { length block.now ≡ length self.old.block }
        ensures seen { self.new.seen ≡ self.old.seen }
        ensures block { self.new.block ≡ block.now }
        ensures faults { self.new.faults ≡ self.old.faults }
    {
        self.block.copy_from_slice(block);
    }

    /// Writes down what was found at the next place.
    pub(crate) fn note(
        &mut self,
        finding: Finding,
        place: Place,
        unchecked: &mut u64,
    ) -> Result<(), AllocError>
        requires seen { self.old.seen < 2 ^ 63 }
        requires room { unchecked.old < 2 ^ 63 }
        ensures noted { OnOk result (IsNoted finding place self.old.block self.old self.new) }
        ensures counted { OnOk result (unchecked.new ≡ unchecked.old + unchecked_one finding) }
    {
        self.seen += 1;
        self.good = finding == Finding::Good;
        match finding {
            Finding::Good => {}
            Finding::Bad => self.faults.push((place, Verdict::Bad))?,
            Finding::Unread => self.faults.push((place, Verdict::Unread))?,
            Finding::Unchecked => *unchecked += 1,
        }
        Ok(())
    }

    /// The places that a report names.
    pub(crate) fn faults(&self) -> &[(Place, Verdict)]
        ensures { result.now ≡ self.now.faults }
    {
        self.faults.as_slice()
    }
}

/// How many places of a row were looked at.
pub(crate) fn seen_of<A: Allocator>(rows: &[Row<A>], row: usize) -> u64
    requires { row < length rows.now }
    ensures { result ≡ seen_in rows.now row }
{
    let here = &rows[row];
    here.seen()
}

/// Whether the last block of a row is good.
pub(crate) fn good_of<A: Allocator>(rows: &[Row<A>], row: usize) -> bool
    requires { row < length rows.now }
    ensures { result ≡ (known rows.now row).good }
{
    let here = &rows[row];
    here.is_good()
}

/// Whether the last block of level 0 isn't good, so that no digest is named for a data block below it.
pub(crate) fn is_lost<A: Allocator>(tree: &Tree<A>, rows: &[Row<A>]) -> bool
    requires { AreRows tree.now rows.now }
    ensures lost { result ≡ true → (0 < height tree.now) × ((known rows.now 1).good ≡ false) }
    ensures found { result ≡ false → 0 < height tree.now → (known rows.now 1).good ≡ true }
{
    if tree.levels() == 0 {
        return false;
    }
    !good_of(rows, 1)
}

/// The digest that is named for a place: the root hash in the top row, else by the last block of the row above, if that is good.
pub(crate) fn name_of<A: Allocator>(
    tree: &Tree<A>,
    row: usize,
    index: u64,
    rows: &[Row<A>],
) -> Option<Digest>
    requires row { row ≤ height tree.now }
    requires rows { AreRows tree.now rows.now }
    ensures { IsNamed tree.now row index rows.now result }
{
    if row == tree.levels() {
        return Some(tree.root());
    }
    let above = &rows[row + 1];
    if above.is_good() {
        Some(tree.digest_in(above.block(), tree.slot_of(index)))
    } else {
        None
    }
}

/// Writes down what was found at the next place of a row.
pub(crate) fn note<A: Allocator>(
    rows: &mut [Row<A>],
    row: usize,
    finding: Finding,
    place: Place,
    unchecked: &mut u64,
) -> Result<(), AllocError>
    requires row { row < length rows.old }
    requires seen { seen_in rows.old row < 2 ^ 63 }
    requires room { unchecked.old < 2 ^ 63 }
    ensures step { OnOk result (IsStep row finding place (known rows.old row).block rows.old rows.new) }
    ensures counted { OnOk result (unchecked.new ≡ unchecked.old + unchecked_one finding) }
{
    let here = &mut rows[row];
    here.note(finding, place, unchecked)
}

/// The same, and keeps the block.
pub(crate) fn note_block<A: Allocator>(
    rows: &mut [Row<A>],
    row: usize,
    block: &[u8],
    finding: Finding,
    place: Place,
    unchecked: &mut u64,
) -> Result<(), AllocError>
    requires row { row < length rows.old }
    requires whole { length block.now ≡ length (known rows.old row).block }
    requires seen { seen_in rows.old row < 2 ^ 63 }
    requires room { unchecked.old < 2 ^ 63 }
    ensures step { OnOk result (IsStep row finding place block.now rows.old rows.new) }
    ensures counted { OnOk result (unchecked.new ≡ unchecked.old + unchecked_one finding) }
{
    let here = &mut rows[row];
    here.keep(block);
    here.note(finding, place, unchecked)
}
