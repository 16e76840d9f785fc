//! What a session reads from.

ghost use Rattle.std.specs.Prelude.{◌≡◌, ◌≤◌, ◌<◌, ◌+◌, ◌++◌, ℕ, List, OnOk, OnErr, IsErrOf, vec_len, vec_capacity, All};
ghost use Rattle.nbd_session.specs.Export.{Costs, Facts, Failed, IsWithin, Keeps, Lacked, Served};

use std::alloc::Allocator;

/// Why a read gave no bytes.
#[derive(Clone, Copy, Debug, Drop, PartialEq, Eq)]
pub enum ExportFault {
    /// The device failed, or what it gave was refused. A client is told EIO.
    Io,
    /// Memory was refused. A client is told ENOMEM.
    NoMemory,
}

/// A read-only device of a fixed size.
///
/// Contracts see its `facts` at a moment: `size` and `block`; `may_serve`, which holds of each answer that was given;
/// `may_refuse` and `may_lack`, which hold of each range that was refused; `steady content`, which says that the whole
/// content is known; a count of `failures` and one of `reads` of the device, and `may_cost`, which holds of each number by
/// which one read of a range raised the second. Neither a read nor a warming takes any of them back.
pub trait Export {
    ghost facts: { Self → Facts };

    /// What an implementation says of its own value after any number of reads and warmings, where its facts don't say it.
    ghost later: { Self → Self → Type 0 };

    /// The size in bytes.
    fn size(&self) -> u64
        ensures { result ≡ (facts self.now).size };

    /// The preferred block size in bytes, as a client is told it ("Block size constraints").
    fn block(&self) -> u32
        ensures { result ≡ (facts self.now).block };

    /// Appends the `len` bytes from `offset` on. The caller owes a range that doesn't go past the end.
    ///
    /// Where the content is steady, they are its slice. `Io` comes with leave to refuse this range, and where the
    /// content is steady only if the count of failures rose; `NoMemory` comes with leave to lack memory for it, only where
    /// `out` hadn't the room for `len` bytes, and then the device wasn't read. On both `out` is as before.
    fn read_at<A: Allocator>(
        &mut self,
        offset: u64,
        len: usize,
        out: &mut Vec<u8, A>,
    ) -> Result<(), ExportFault>
        requires { offset + len ≤ (facts self.old).size }
        ensures keeps { Keeps (facts self.old) (facts self.new) }
        ensures later { later self.old self.new }
        ensures ok { OnOk result ((bytes : List ℕ) × (out.new.items ≡ out.old.items ++ bytes)
            × Served (facts self.old) (facts self.new) offset len bytes) }
        ensures io { IsErrOf result ExportFault.Io → Failed (facts self.old) (facts self.new) offset len }
        ensures lack { IsErrOf result ExportFault.NoMemory → Lacked (facts self.old) (facts self.new) offset len }
        ensures room { IsErrOf result ExportFault.NoMemory → vec_capacity out.old < vec_len out.old + len }
        ensures unread { IsErrOf result ExportFault.NoMemory → (facts self.new).reads ≡ (facts self.old).reads }
        ensures costs { Costs (facts self.old) (facts self.new) offset len }
        ensures unchanged { OnErr result (out.new.items ≡ out.old.items) };

    /// A hint: these ranges, each an offset and a length in bytes, will be asked for soon, in this order. It returns nothing, and
    /// a read of one of them may still fail. An export may do nothing, as here, or read of its device beforehand: such reads are
    /// of no request, so `reads` and `failures` may rise by any number, and `may_cost` doesn't speak of them.
    fn warm(&mut self, ranges: &[(u64, u32)])
        requires { All (IsWithin (facts self.old).size) ranges.now }
        ensures keeps { Keeps (facts self.old) (facts self.new) }
        ensures later { later self.old self.new }
    {}

    /// No read at all is one number of reads.
    ghost later_same: { (x : Self) → later x x };

    /// Reads after reads are reads.
    ghost later_on: { (x y z : Self) → later x y → later y z → later x z };
}
