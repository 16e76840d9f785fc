//! An export in memory.

ghost use Rattle.std.specs.Prelude.{◌≡◌, IfOk, length};

use nbd_session::{Export, ExportFault};
use std::alloc::{AllocError, Allocator, Global};

/// An export of 8,704 bytes 5a, which refuses its next read where it is told to; with want of memory where that read's bytes
/// have no room.
#[derive(Drop)]
pub struct Image {
    pub bytes: Vec<u8>,
    pub refusal: Option<ExportFault>,
}

impl Export for Image {
    ghost facts = { λ image. record {
      size = length image.bytes.items;
      block = 512;
      may_serve = λ _ _. Unit {0};
      may_refuse = λ _ _. Unit {0};
      may_lack = λ _ _. Unit {0};
      steady = λ _. ⊥;
      failures = 0;
      reads = 0;
      may_cost = λ _ _ n. n ≡ 0;
    } };

    ghost later = { λ _ _. Unit {0} };

    fn size(&self) -> u64 {
        self.bytes.len() as u64
    }

    fn block(&self) -> u32 {
        512
    }

    fn read_at<A: Allocator>(
        &mut self,
        offset: u64,
        len: usize,
        out: &mut Vec<u8, A>,
    ) -> Result<(), ExportFault> {
        let room = out.capacity() - out.len();
        match self.refusal {
            Some(ExportFault::Io) => {
                self.refusal = None;
                return Err(ExportFault::Io);
            }
            Some(ExportFault::NoMemory) if room < len => {
                self.refusal = None;
                return Err(ExportFault::NoMemory);
            }
            _ => {}
        }
        let start = offset as usize;
        match out.extend_from_slice(&self.bytes[start..start + len]) {
            Ok(()) => Ok(()),
            Err(_) => Err(ExportFault::NoMemory),
        }
    }

    ghost later_same = { λ _. tt };

    ghost later_on = { λ _ _ _ _ _. tt };
}

/// Such an export.
pub fn make_image(alloc: Global, refusal: Option<ExportFault>) -> Result<Image, AllocError>
    ensures { IfOk result (λ image. length image.bytes.items ≡ 8704) }
{
    Ok(Image {
        bytes: vec![in alloc; 0x5a; 8_704]?,
        refusal,
    })
}
