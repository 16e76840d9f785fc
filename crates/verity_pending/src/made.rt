//! A hash block that a commit writes.
ghost use Rattle.std.specs.Prelude.{◌≡◌, IfOk};

use std::alloc::{AllocError, Allocator};
use std::marker::Model;
use std::rc::Rc;
use verity_store::Block;

/// A hash block that a commit writes, and where. Those that follow one another and are the same share their bytes.
#[derive(Drop)]
pub struct Made<A: Allocator> {
    at: u64,
    block: Rc<Block<A>, A>,
}

impl<A: Allocator> Model for Made<A> {
    ghost use Rattle.verity_pending.specs.Plan.{Planned};

    ghost Value = { Planned };

    ghost view = { λ made. record { at = made.at; block = made.block.value } };
}

impl<A: Allocator> Made<A> {
    /// Where it is written.
    pub fn at(&self) -> u64
        ensures { result ≡ self.now.at }
    {
        self.at
    }

    /// Its bytes.
    pub fn block(&self) -> &[u8]
        ensures { result.now ≡ self.now.block }
    {
        self.block.as_ref().as_slice()
    }
}

impl<A: Allocator + Copy> Made<A> {
    /// These bytes at this place. It takes memory for them, but none where the block before it has the same.
    pub fn behind(
        alloc: A,
        before: Option<&Made<A>>,
        at: u64,
        bytes: &[u8],
    ) -> Result<Made<A>, AllocError>
        ensures { IfOk result (λ made. made ≡ record { at = at; block = bytes.now }) }
    {
        if let Some(made) = before {
            if made.block() == bytes {
                let block = made.block.clone()?;
                return Ok(Made { at, block });
            }
        }
        let own = Block::new(bytes.to_vec(alloc)?);
        let block = Rc::new(alloc, own)?;
        Ok(Made { at, block })
    }
}
