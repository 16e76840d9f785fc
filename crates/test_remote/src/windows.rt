//! Reads ahead of a file that counts them, and has a byte that can't be read.

use remote_read_ahead::Ahead;
use std::alloc::{AllocError, Global};
use std::cell::Cell;
use std::io::{self, ErrorKind};
use std::test::Fail;
use verity_store::RawFile;

const LEN: u64 = 1 << 20;

/// A file whose byte at each offset is what is left of it by 251.
#[derive(Drop)]
struct Far<'a> {
    bad: u64,
    reads: &'a Cell<u64>,
}

impl RawFile for Far<'_> {
    fn byte_len(&self) -> io::Result<u64> {
        Ok(LEN)
    }

    fn read_exact_at(&mut self, at: u64, out: &mut [u8]) -> io::Result<()> {
        self.reads.set(self.reads.get().saturating_add(1));
        if at <= self.bad && self.bad - at < out.len() as u64 {
            return Err(io::Error::from(ErrorKind::Other));
        }
        for (index, byte) in out.iter_mut().enumerate() {
            *byte = (at.saturating_add(index as u64) % 251) as u8;
        }
        Ok(())
    }

    fn write_all_at(&mut self, _at: u64, _block: &[u8]) -> io::Result<()> {
        Ok(())
    }

    fn set_byte_len(&mut self, _n: u64) -> io::Result<()> {
        Ok(())
    }

    fn sync(&mut self) -> io::Result<()> {
        Ok(())
    }
}

/// What came of reads ahead: how many failed, how many gave other bytes, and how many reads of the file below there were.
#[derive(Clone, Copy, Debug, PartialEq, Eq)]
struct Outcome {
    failed: u64,
    wrong: u64,
    below: u64,
}

/// Reads blocks of 4 KiB, so many from each of these offsets on, in turn.
fn read(alloc: Global, starts: &[u64], blocks: u64, bad: u64) -> Result<Outcome, AllocError> {
    let reads = Cell::new(0);
    let far = Far { bad, reads: &reads };
    let mut ahead = Ahead::new(alloc, far, LEN, 262_144)?;
    let mut outcome = Outcome {
        failed: 0,
        wrong: 0,
        below: 0,
    };
    let mut block = [0u8; 4096];
    for turn in 0..blocks {
        for start in starts {
            let at = start.saturating_add(turn.saturating_mul(4096));
            if ahead.read_exact_at(at, &mut block).is_err() {
                outcome.failed = outcome.failed.saturating_add(1);
            } else if block[0] as u64 != at % 251
                || block[4095] as u64 != at.saturating_add(4095) % 251
            {
                outcome.wrong = outcome.wrong.saturating_add(1);
            }
        }
    }
    outcome.below = reads.get();
    Ok(outcome)
}

/// The offsets, the blocks from each on, the byte that can't be read; and the reads that fail, and those below.
const ROWS: [(&[u64], u64, u64, (u64, u64)); 4] = [
    // One reader: windows of 128 KiB, 256 KiB and so on.
    (&[0], 256, LEN, (0, 5)),
    // Two readers in turn, of which the second one is known at its second read.
    (&[0, 524_288], 64, LEN, (0, 5)),
    // One block can't be read, and each other one can.
    (&[0], 64, 100_000, (1, 0)),
    (&[0, 524_288], 64, 600_000, (1, 0)),
];

#[test]
fn readers_have_windows_and_a_bad_byte_is_one_failure(rt: HostRuntime) -> Result<(), Fail> {
    for (starts, blocks, bad, (failed, below)) in ROWS {
        let comes = read(rt.alloc(), starts, blocks, bad)?;
        assert_eq!(rt; (comes.failed, comes.wrong), (failed, 0));
        assert!(rt; below == 0 || comes.below == below);
    }
    Ok(())
}
