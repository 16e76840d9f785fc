//! Commands whose written blocks are filled with one byte, and what they leave.

use std::alloc::{AllocError, Global};
use std::test::Fail;
use verity_edit::Command;
use verity_store::{Block, MemStore};

#[derive(Clone, Copy)]
pub enum Step {
    Write(u64, u8),
    WriteShort(u64),
    Grow(u64),
    Shrink(u64),
    Discard,
    Commit,
}

fn filled(alloc: Global, byte: u8, size: usize) -> Result<Block, Fail> {
    Ok(Block::new(Vec::from_elem(alloc, byte, size)?))
}

fn command_of(alloc: Global, step: Step, size: usize) -> Result<Command, Fail> {
    match step {
        Step::Write(n, byte) => Ok(Command::Write(n, filled(alloc, byte, size)?)),
        Step::WriteShort(n) => Ok(Command::Write(n, filled(alloc, 1, size.saturating_sub(1))?)),
        Step::Grow(count) => Ok(Command::Grow(count)),
        Step::Shrink(count) => Ok(Command::Shrink(count)),
        Step::Discard => Ok(Command::Discard),
        Step::Commit => Ok(Command::Commit),
    }
}

// The commands over data blocks of `size` bytes.
pub fn commands_of(alloc: Global, steps: &[Step], size: usize) -> Result<Vec<Command>, Fail> {
    let mut commands = Vec::new(alloc);
    for step in steps {
        commands.push(command_of(alloc, *step, size)?)?;
    }
    Ok(commands)
}

// The byte that fills each data block of the committed image, and of the working one.
#[derive(Drop)]
pub struct Fills {
    pub committed: Vec<u8>,
    pub working: Vec<u8>,
}

impl Fills {
    pub fn new(alloc: Global, fills: &[u8]) -> Result<Fills, AllocError> {
        Ok(Fills {
            committed: fills.to_vec(alloc)?,
            working: fills.to_vec(alloc)?,
        })
    }

    // The images after a command that was done.
    pub fn follow(&mut self, alloc: Global, step: Step) -> Result<(), AllocError> {
        match step {
            Step::Write(n, byte) => {
                if let Some(fill) = self.working.get_mut(n as usize) {
                    *fill = byte;
                }
            }
            Step::WriteShort(_) => {}
            Step::Grow(count) => self.working.resize(count as usize, 0)?,
            Step::Shrink(count) => self.working.truncate(count as usize),
            Step::Discard => self.working = self.committed.as_slice().to_vec(alloc)?,
            Step::Commit => self.committed = self.working.as_slice().to_vec(alloc)?,
        }
        Ok(())
    }
}

// The data blocks of `size` bytes that are filled so.
pub fn store_of(alloc: Global, fills: &[u8], size: usize) -> Result<MemStore, Fail> {
    let mut bytes = Vec::new(alloc);
    for fill in fills {
        let len = bytes.len();
        bytes.resize(len.saturating_add(size), *fill)?;
    }
    Ok(MemStore::new(bytes, size)?)
}
