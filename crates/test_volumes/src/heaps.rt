//! Heaps with little room.

use linked_list_allocator::LocalHeap;
use std::alloc::{AllocError, Global};

/// The bytes by which a heap grows from run to run: what one request is rounded up to.
pub const STEP: usize = 16;

/// Takes all that is left of a heap.
///
/// # Errors
///
/// `AllocError` where `alloc` has no room for the list of what was taken.
pub fn fill<'a>(
    alloc: Global,
    heap: &'a LocalHeap,
) -> Result<Vec<Vec<u8, &'a LocalHeap>>, AllocError> {
    let mut taken = Vec::new(alloc);
    for size in [4096, 512, 64, 1] {
        for _ in 0..1000 {
            match Vec::from_elem(heap, 0u8, size) {
                Ok(part) => taken.push(part)?,
                Err(_) => break,
            }
        }
    }
    Ok(taken)
}
