//! What a commit asks of a store whose changes are staged.
ghost use Rattle.std.specs.Prelude.{◌≡◌, ◌≤◌, Bool, length, IfOk};
ghost use Rattle.std.specs.List.{concat};
ghost use Rattle.verity_journal.specs.Plan.{made, IsSide};
ghost use Rattle.verity_stage.specs.Stage.{Stage, side_of, bytes_below};

use std::alloc::{AllocError, Allocator};
use verity_journal::Side;
use verity_store::BlockStore;

/// A store whose changes are staged over another, to whose blocks it is bound (`fixed`).
pub trait StagedStore<A: Allocator + Copy>: BlockStore {
    /// What is staged.
    ghost stage: { Self → Stage };

    /// Whether a write failed since memory for its block was refused.
    ghost starved: { Self → Bool };

    /// What is staged is a plan for the bytes of the store below, and makes of them what this store holds.
    fn facts(&self)
        ensures side { IsSide (side_of (stage self.now)) }
        ensures kept { (side_of (stage self.now)).keep ≤ length (bytes_below (Self.fixed self.now)) }
        ensures made { made (side_of (stage self.now)) (bytes_below (Self.fixed self.now)) ≡ concat (Self.content self.now) };

    /// Whether a write failed since memory for its block was refused.
    fn is_starved(&self) -> bool
        ensures { result ≡ starved self.now };

    /// The changes that make of a device with the bytes of the store below one with what is staged. It takes memory for the
    /// blocks once more.
    fn side(&self) -> Result<Side<A>, AllocError>
        ensures made { IfOk result (λ side. made side (bytes_below (Self.fixed self.now)) ≡ concat (Self.content self.now)) }
        ensures kept { IfOk result (λ side. side.keep ≤ length (bytes_below (Self.fixed self.now))) }
        ensures side { IfOk result (λ side. side ≡ side_of (stage self.now)) };
}
