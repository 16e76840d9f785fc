//! The room for the lists of a commit. All of it is taken before the first block is hashed, so want of memory for them is answered
//! at once.
ghost use Rattle.std.specs.Prelude.{◌≡◌, ◌<◌, [], IfOk};
ghost use Rattle.verity_geometry.specs.Geometry.{levels_of};

use std::alloc::{AllocError, Allocator};
use std::marker::Model;
use verity_geometry::Geometry;
use verity_pending::Children;

/// The room for the lists of a level: the numbers of the blocks that are made again, and their digests. Nothing stands in it.
#[derive(Drop)]
pub struct Room<A: Allocator> {
    numbers: Vec<u64, A>,
    digests: Children<A>,
}

impl<A: Allocator> Model for Room<A> {
    ghost use Rattle.verity_pending.specs.Children.{Listed};

    ghost Value = { Listed };

    ghost use Rattle.verity_plan.specs.Rooms.{StaysEmpty};

    ghost view = { λ room. room.digests };

    ghost invariant = { StaysEmpty };
}

impl<A: Allocator + Copy> Room<A> {
    /// Room for this many blocks.
    pub fn new(alloc: A, count: usize) -> Result<Self, AllocError> {
        let numbers = Vec::with_capacity(alloc, count)?;
        let digests = Children::with_room(alloc, count)?;
        Ok(Room { numbers, digests })
    }

    /// Its two lists.
    pub fn open(self) -> (Vec<u64, A>, Children<A>)
        ensures numbers { result.0.items ≡ [] }
        ensures digests { result.1.items ≡ [] }
    {
        (self.numbers, self.digests)
    }
}

/// How many blocks of the level above hold the digests of so many blocks that stand one behind the other, at most.
fn most_above(blocks: u64, per_block: u64) -> u64 {
    (blocks / per_block.max(1)).saturating_add(2)
}

/// How many blocks of a level are made again at most, where `named` leaves stand anywhere and `others` one behind the other.
fn most_in(geometry: &Geometry, level: usize, named: u64, others: u64) -> usize
    requires { level < levels_of geometry.now }
{
    let per_block = geometry.per_block() as u64;
    let mut covered = most_above(others, per_block);
    for _ in 0..level {
        covered = most_above(covered, per_block);
    }
    let most = covered.saturating_add(named);
    most.min(geometry.level_len(level)) as usize
}

/// How many hash blocks are made again at most.
pub fn most_made(geometry: &Geometry, named: u64, others: u64) -> usize {
    let mut most = 0usize;
    for level in 0..geometry.levels() {
        most = most.saturating_add(most_in(geometry, level, named, others));
    }
    most
}

/// The room for each level, of the lowest last.
pub fn rooms_for<A: Allocator + Copy>(
    alloc: A,
    geometry: &Geometry,
    named: u64,
    others: u64,
) -> Result<Vec<Room<A>, A>, AllocError> {
    let levels = geometry.levels();
    let mut rooms = Vec::with_capacity(alloc, levels)?;
    for above in 0..levels {
        let count = most_in(geometry, levels - 1 - above, named, others);
        rooms.push(Room::new(alloc, count)?)?;
    }
    Ok(rooms)
}

/// Takes the last room, or makes one where there is none.
pub fn next_room<A: Allocator + Copy>(
    alloc: A,
    rooms: &mut Vec<Room<A>, A>,
) -> Result<Room<A>, AllocError> {
    match rooms.pop() {
        Some(room) => Ok(room),
        None => Room::new(alloc, 0),
    }
}
