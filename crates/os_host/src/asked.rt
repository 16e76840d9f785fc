//! A file of which each call is asked of a system.
ghost use Rattle.std.specs.Prelude.{◌≡◌, true, None, length, IsOk, IfOk, OnOk, OnErr};
ghost use Rattle.verity_store.specs.RawFile.{is_known, HasLength, Reads, Writes, MayWrite, SetsLength, MaySetLength};

use crate::paths::Paths;
use std::fs::File;
use std::io;
use verity_store::RawFile;

/// A file that was opened, and the system of which its calls are asked: each for this very file, place and bytes. So where one failed, that
/// system refused a call.
#[derive(Drop)]
pub struct Asked<'a, P> {
    rt: &'a P,
    file: File,
}

impl<'a, P: Paths> Asked<'a, P> {
    /// This file, of this system.
    pub fn new(rt: &'a P, file: File) -> Asked<'a, P>
        ensures rt { result.rt.now ≡ rt.now }
        ensures file { result.file ≡ file }
    {
        Asked { rt, file }
    }
}

// Nothing is known of the bytes of such a file, but for what the system says of each call.
impl<'a, P: Paths> RawFile for Asked<'a, P> {
    ghost use Rattle.std.specs.Prelude.{◌≡◌, true};

    ghost refuses = { λ a _. P.refuses a.rt.now ≡ true };

    ghost may_refuse = { λ a. P.refuses a.rt.now };

    fn byte_len(&self) -> io::Result<u64>
        ensures asked { IfOk result (P.has_len self.now.rt.now self.now.file) }
        ensures len { IfOk result (HasLength None) }
        ensures known { is_known None ≡ true → IsOk result }
        ensures refused { OnErr result (P.refuses self.now.rt.now ≡ true) }
    {
        self.rt.byte_len(&self.file)
    }

    fn read_exact_at(&mut self, at: u64, out: &mut [u8]) -> io::Result<()>
        ensures asked { OnOk result (P.reads self.old.rt.now self.old.file at out.new) }
        ensures given { OnOk result (Reads None at out.new) }
        ensures refused { OnErr result (P.refuses self.new.rt.now ≡ true) }
        ensures same { P.refuses self.new.rt.now ≡ P.refuses self.old.rt.now }
    {
        self.rt.read_at(&self.file, at, out)
    }

    fn write_all_at(&mut self, at: u64, block: &[u8]) -> io::Result<()>
        ensures asked { OnOk result (P.writes self.old.rt.now self.old.file at block.now self.new.file) }
        ensures written { OnOk result (Writes None None at block.now) }
        ensures failed { OnErr result (MayWrite None None at (length block.now)) }
        ensures refused { OnErr result (P.refuses self.new.rt.now ≡ true) }
        ensures same { P.refuses self.new.rt.now ≡ P.refuses self.old.rt.now }
    {
        self.rt.write_at(&mut self.file, at, block)
    }

    fn set_byte_len(&mut self, n: u64) -> io::Result<()>
        ensures asked { OnOk result (P.sets_len self.old.rt.now self.old.file n self.new.file) }
        ensures set { OnOk result (SetsLength None None n) }
        ensures failed { OnErr result (MaySetLength None None n) }
        ensures refused { OnErr result (P.refuses self.new.rt.now ≡ true) }
        ensures same { P.refuses self.new.rt.now ≡ P.refuses self.old.rt.now }
    {
        self.rt.set_byte_len(&mut self.file, n)
    }

    fn sync(&mut self) -> io::Result<()>
        ensures asked { OnOk result (P.syncs self.old.rt.now self.old.file self.new.file) }
        ensures synced { OnOk result (true ≡ true) }
        ensures refused { OnErr result (P.refuses self.new.rt.now ≡ true) }
        ensures same { P.refuses self.new.rt.now ≡ P.refuses self.old.rt.now }
    {
        self.rt.sync(&mut self.file)
    }
}
