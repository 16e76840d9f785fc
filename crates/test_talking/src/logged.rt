//! An export in memory that keeps what it is told and asked.

ghost use Rattle.std.specs.Prelude.{◌≡◌, IfOk, length};

use nbd_session::{Export, ExportFault};
use std::alloc::{AllocError, Allocator, Global};

/// What an export was told will be asked for, or was asked for: an offset, and a length in bytes.
#[derive(Clone, Copy, Debug, Drop, PartialEq, Eq)]
pub enum Call {
    Told(u64, u32),
    Read(u64, usize),
}

/// An export that keeps these calls, in order.
#[derive(Drop)]
pub struct Logged {
    bytes: Vec<u8>,
    pub calls: Vec<Call>,
}

/// Keeps what an export was told.
fn keep(calls: &mut Vec<Call>, ranges: &[(u64, u32)]) {
    for &(offset, len) in ranges {
        let _kept = calls.push(Call::Told(offset, len));
    }
}

impl Export for Logged {
    ghost facts = { λ export. record {
      size = length export.bytes.items;
      block = 512;
      may_serve = λ _ _. Unit {0};
      may_refuse = λ _ _. Unit {0};
      may_lack = λ _ _. Unit {0};
      steady = λ _. ⊥;
      failures = 0;
      reads = 0;
      may_cost = λ _ _ n. n ≡ 0;
    } };

    ghost later = { λ _ _. Unit {0} };

    fn size(&self) -> u64 {
        self.bytes.len() as u64
    }

    fn block(&self) -> u32 {
        512
    }

    fn read_at<A: Allocator>(
        &mut self,
        offset: u64,
        len: usize,
        out: &mut Vec<u8, A>,
    ) -> Result<(), ExportFault> {
        let _kept = self.calls.push(Call::Read(offset, len));
        let start = offset as usize;
        match out.extend_from_slice(&self.bytes[start..start + len]) {
            Ok(()) => Ok(()),
            Err(_) => Err(ExportFault::NoMemory),
        }
    }

    fn warm(&mut self, ranges: &[(u64, u32)]) {
        keep(&mut self.calls, ranges);
    }

    ghost later_same = { λ _. tt };

    ghost later_on = { λ _ _ _ _ _. tt };
}

/// Such an export of 8,704 bytes, where each block of 512 bytes has its number in all of them.
pub fn make_logged(alloc: Global) -> Result<Logged, AllocError> {
    let mut bytes = Vec::new(alloc);
    for block in 0..17u8 {
        bytes.extend_from_slice(&[block; 512])?;
    }
    Ok(Logged {
        bytes,
        calls: Vec::new(alloc),
    })
}
