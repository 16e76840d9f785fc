//! What is asked of a block store.
ghost use Rattle.std.specs.Prelude.{◌≡◌, ◌≢◌, ℕ, ◌+◌, ◌*◌, ◌^◌, ◌<◌, ◌≤◌, Bool, true, OnOk, OnErr, IfErr};
ghost use Rattle.std.specs.Prelude.{List, [], ◌∷◌, ◌++◌, length, slice_index_or, slice_set};
ghost use Rattle.verity_profile.specs.Profile.{IsBlockSize, AllSized};
ghost use Rattle.std.specs.Fork.{slice_chunk};
ghost use Rattle.verity_store.specs.Given.{GoesOn, run_of, GivesPart};
ghost use Rattle.verity_store.specs.Blocks.{resized, ResizedToward, ChangesAt};

use crate::StoreFault;

/// A list of blocks of one size, which may fail and need not be honest.
///
/// The size is one of the profile and never changes. A caller owes blocks that are there, buffers of one block, and lengths
/// of at most 2^41 blocks.
pub trait BlockStore {
    /// The bytes of a block.
    ghost size: { Self → ℕ };

    /// The blocks that the store holds.
    ghost content: { Self → List (List ℕ) };

    /// A read that succeeds gives the block of `content`, and a write that succeeds puts it there.
    ghost tells: { Self → Bool };

    /// The blocks that reads gave, each after its number, in the order in which they were given.
    ghost given: { Self → List (ℕ × List ℕ) };

    /// How often the device failed.
    ghost failures: { Self → ℕ };

    /// How many reads were asked for.
    ghost reads: { Self → ℕ };

    /// How many changes were asked for: writes and changes of the length, whatever was answered.
    ghost changes: { Self → ℕ };

    /// Up to how many blocks `set_len` is not refused for memory.
    ghost room: { Self → ℕ };

    /// It was asked to keep all that was written. No call but `sync` promises it.
    ghost synced: { Self → Bool } = { λ _. true };

    /// What the store is bound to, as that against which it checks what it reads. No call changes it.
    ghost fixed: { Self → List (ℕ × List ℕ) } = { λ _. [] };

    /// The bytes of a block.
    fn block_size(&self) -> usize
        ensures value { result ≡ size self.now }
        ensures profile { IsBlockSize result }
        ensures blocks { AllSized result (content self.now) };

    /// How many blocks there are.
    fn len(&self) -> u64
        ensures { result ≡ length (content self.now) };

    /// Reads block `n` into `out`, which has the bytes of a block.
    ///
    /// S1 where the device failed; `out` may then hold anything. The read is counted in either case.
    fn read(&mut self, n: u64, out: &mut [u8]) -> Result<(), StoreFault>
        requires within { n < length (content self.old) }
        requires sized { length out.old ≡ size self.old }
        ensures given { OnOk result (given self.new ≡ given self.old ++ (n, out.new) ∷ []) }
        ensures ungiven { OnErr result (given self.new ≡ given self.old) }
        ensures right { OnOk result (tells self.old ≡ true → slice_index_or (content self.old) n [] ≡ out.new) }
        ensures error { IfErr result (λ e. e ≡ StoreFault.Device) }
        ensures failed { OnErr result (failures self.old < failures self.new) }
        ensures unfailed { OnOk result (failures self.new ≡ failures self.old) }
        ensures failures { failures self.old ≤ failures self.new }
        ensures counted { reads self.new ≡ reads self.old + 1 }
        ensures changes { changes self.new ≡ changes self.old }
        ensures content { content self.new ≡ content self.old }
        ensures gave { GoesOn (given self.old) (given self.new) }
        ensures tells { tells self.new ≡ tells self.old }
        ensures size { size self.new ≡ size self.old }
        ensures fixed { fixed self.new ≡ fixed self.old }
        ensures room { room self.new ≡ room self.old };

    /// Reads `count` blocks from `first` on into `out`, which has the bytes of as many, one after the other.
    ///
    /// S1 where the device failed at one of them; `out` may then hold anything. Each block that is read is counted as one read.
    fn read_run(&mut self, first: u64, count: usize, out: &mut [u8]) -> Result<(), StoreFault>
        requires within { first + count ≤ length (content self.old) }
        requires sized { length out.old ≡ count * size self.old }
        ensures given { OnOk result (given self.new ≡ given self.old ++ run_of first (size self.old) count out.new) }
        ensures given_most { OnErr result (GivesPart first (size self.old) count out.new (given self.old) (given self.new)) }
        ensures right { OnOk result (tells self.old ≡ true
            → (j : ℕ) → j < count → slice_index_or (content self.old) (first + j) [] ≡ slice_chunk out.new (size self.old) j) }
        ensures error { IfErr result (λ e. e ≡ StoreFault.Device) }
        ensures failed { OnErr result (failures self.old < failures self.new) }
        ensures unfailed { OnOk result (failures self.new ≡ failures self.old) }
        ensures failures { failures self.old ≤ failures self.new }
        ensures counted { OnOk result (reads self.new ≡ reads self.old + count) }
        ensures counted_least { reads self.old ≤ reads self.new }
        ensures counted_most { reads self.new ≤ reads self.old + count }
        ensures changes { changes self.new ≡ changes self.old }
        ensures content { content self.new ≡ content self.old }
        ensures gave { GoesOn (given self.old) (given self.new) }
        ensures tells { tells self.new ≡ tells self.old }
        ensures size { size self.new ≡ size self.old }
        ensures fixed { fixed self.new ≡ fixed self.old }
        ensures room { room self.new ≡ room self.old }
    {
        let size = self.block_size();
        let _len = self.len();
        'each: for j in 0..count {
            let at = j * size;
            self.read(first + j as u64, &mut out[at..at + size])?;
        }
        Ok(())
    }

    /// Writes `block`, which has the bytes of a block, to block `n`.
    ///
    /// S1 where the device failed; block `n` may then hold anything. No other block changes. The write is counted in either case.
    fn write(&mut self, n: u64, block: &[u8]) -> Result<(), StoreFault>
        requires within { n < length (content self.old) }
        requires sized { length block.now ≡ size self.old }
        ensures written { OnOk result (tells self.old ≡ true → content self.new ≡ slice_set (content self.old) n block.now) }
        ensures others { ChangesAt n (content self.old) (content self.new) }
        ensures blocks { AllSized (size self.old) (content self.old) → AllSized (size self.old) (content self.new) }
        ensures error { IfErr result (λ e. e ≡ StoreFault.Device) }
        ensures failed { OnErr result (failures self.old < failures self.new) }
        ensures unfailed { OnOk result (failures self.new ≡ failures self.old) }
        ensures failures { failures self.old ≤ failures self.new }
        ensures reads { reads self.new ≡ reads self.old }
        ensures counted { changes self.new ≡ changes self.old + 1 }
        ensures given { given self.new ≡ given self.old }
        ensures gave { GoesOn (given self.old) (given self.new) }
        ensures tells { tells self.new ≡ tells self.old }
        ensures size { size self.new ≡ size self.old }
        ensures fixed { fixed self.new ≡ fixed self.old }
        ensures room { room self.new ≡ room self.old };

    /// Makes room for `blocks` blocks, so that `set_len` to as many is not refused for memory. No block changes.
    ///
    /// S3 where memory was refused, which it is only where there was no such room before.
    fn reserve(&mut self, blocks: u64) -> Result<(), StoreFault>
        requires { blocks ≤ 2 ^ 41 }
        ensures reserved { OnOk result (blocks ≤ room self.new) }
        ensures needed { OnErr result (room self.old < blocks) }
        ensures error { IfErr result (λ e. e ≡ StoreFault.NoMemory) }
        ensures failures { failures self.new ≡ failures self.old }
        ensures reads { reads self.new ≡ reads self.old }
        ensures changes { changes self.new ≡ changes self.old }
        ensures content { content self.new ≡ content self.old }
        ensures given { given self.new ≡ given self.old }
        ensures gave { GoesOn (given self.old) (given self.new) }
        ensures tells { tells self.new ≡ tells self.old }
        ensures size { size self.new ≡ size self.old }
        ensures fixed { fixed self.new ≡ fixed self.old }
        ensures room { room self.old ≤ room self.new };

    /// Cuts the store to `blocks` blocks, or fills it up to as many with zero blocks.
    ///
    /// S1 where the device failed; S3 where memory was refused, which it is only past `room`. The blocks that are in both
    /// lengths stay in any case, and after a refusal the store has either length or one between. The change is counted in
    /// each case.
    fn set_len(&mut self, blocks: u64) -> Result<(), StoreFault>
        requires { blocks ≤ 2 ^ 41 }
        ensures done { OnOk result (content self.new ≡ resized (size self.old) blocks (content self.old)) }
        ensures partly { ResizedToward (size self.old) blocks (content self.old) (content self.new) }
        ensures blocks { AllSized (size self.old) (content self.old) → AllSized (size self.old) (content self.new) }
        ensures error { IfErr result (λ e. e ≢ StoreFault.Device → (e ≡ StoreFault.NoMemory) × (room self.old < blocks)) }
        ensures failed { result ≡ Err StoreFault.Device → failures self.old < failures self.new }
        ensures refused { result ≡ Err StoreFault.NoMemory → failures self.new ≡ failures self.old }
        ensures unfailed { OnOk result (failures self.new ≡ failures self.old) }
        ensures failures { failures self.old ≤ failures self.new }
        ensures reads { reads self.new ≡ reads self.old }
        ensures counted { changes self.new ≡ changes self.old + 1 }
        ensures given { given self.new ≡ given self.old }
        ensures gave { GoesOn (given self.old) (given self.new) }
        ensures tells { tells self.new ≡ tells self.old }
        ensures size { size self.new ≡ size self.old }
        ensures fixed { fixed self.new ≡ fixed self.old }
        ensures room { room self.old ≤ room self.new };

    /// Asks the device to keep what was written. No block changes.
    ///
    /// S1 where the device failed. No contract can say that what was written outlives a stop.
    fn sync(&mut self) -> Result<(), StoreFault>
        ensures synced { OnOk result (synced self.new ≡ true) }
        ensures error { IfErr result (λ e. e ≡ StoreFault.Device) }
        ensures failed { OnErr result (failures self.old < failures self.new) }
        ensures unfailed { OnOk result (failures self.new ≡ failures self.old) }
        ensures failures { failures self.old ≤ failures self.new }
        ensures reads { reads self.new ≡ reads self.old }
        ensures changes { changes self.new ≡ changes self.old }
        ensures content { content self.new ≡ content self.old }
        ensures given { given self.new ≡ given self.old }
        ensures gave { GoesOn (given self.old) (given self.new) }
        ensures tells { tells self.new ≡ tells self.old }
        ensures size { size self.new ≡ size self.old }
        ensures fixed { fixed self.new ≡ fixed self.old }
        ensures room { room self.new ≡ room self.old };
}
