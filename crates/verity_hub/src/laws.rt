//! What follows for callers. Each function does nothing; its contract is a law, in the words of `specs/`.

ghost use Rattle.std.specs.Prelude.{◌≡◌, ℕ, ◌<◌, true, List, length};
ghost use Rattle.std.specs.List.{concat};
ghost use Rattle.nbd_hub.specs.History.{Step, opened};
ghost use Rattle.nbd_hub.specs.After.{IsAfter, IsTold};
ghost use Rattle.nbd_relay.specs.Client.{ClientState, IsServed, IsSaid};
ghost use Rattle.verity_profile.specs.Profile.{AllSized};
ghost use Rattle.verity_superblock.specs.Superblock.{Params, IsProfile};
ghost use Rattle.verity_superblock.specs.Image.{hash_image};
ghost use Rattle.verity_chain.specs.Right.{Fits};
ghost use Rattle.verity_check.specs.Holds.{IsLineOf};
ghost use Rattle.verity_check.specs.Verifier.{Verifying};
ghost use Rattle.verity_hub.specs.Verdicts.{facts_of, HoldsFor, IsRightFor};

use crate::hub::Hub;
use crate::notices::Notices;
use std::alloc::Allocator;
use verity_store::BlockStore;

/// Whatever was done with a hub since it was made, and whatever its stores returned: for every image that fits the table
/// line, each session's output is the talk of its own input, by verdicts that are right.
pub fn outputs_are_right<D: BlockStore, H: BlockStore, A: Allocator + Copy + Drop, N: Notices>(
    hub: &Hub<D, H, A, N>,
)
    ensures { (history : List Step) → IsAfter (facts_of D.BlockStore H.BlockStore hub.now.1) hub.now.0 history
        → (image : List (List ℕ)) → Fits hub.now.1.table image
        → (k : ℕ) → k < opened history → IsTold (IsRightFor D.BlockStore H.BlockStore hub.now.1 image) hub.now.0.offer history k }
{
    hub.sessions.export().check();
}

/// And of each client of such a hub: what was written to it is a beginning of the talk of what was read from it, by verdicts
/// that are right, and all of it once nothing waits and nothing is unsent.
pub fn clients_are_told_right<D: BlockStore, H: BlockStore, A: Allocator + Copy + Drop, N: Notices>(
    hub: &Hub<D, H, A, N>,
)
    ensures { (history : List Step) → IsAfter (facts_of D.BlockStore H.BlockStore hub.now.1) hub.now.0 history
        → (image : List (List ℕ)) → Fits hub.now.1.table image
        → (client : ClientState) (read wrote : List ℕ) → IsServed hub.now.0.offer history client read wrote
        → IsSaid (IsRightFor D.BlockStore H.BlockStore hub.now.1 image) hub.now.0.offer client read wrote }
{
    hub.sessions.export().check();
}

/// Stores that tell, of which the data store holds an image and the hash store is the image's hash device with some blocks
/// in front, hold the image for each verifier over them whose table line is one of the device. So [`crate::serve_stream`]
/// carries what was built or committed.
pub fn serves_what_was_built<D: BlockStore, H: BlockStore>()
    ensures { (p : Params) (image front : List (List ℕ)) (v : Verifying _ _) → IsProfile p (length image)
        → AllSized p.data_block_size image → AllSized p.hash_block_size front → AllSized p.hash_block_size (H.content v.hash_store)
        → D.tells v.data_store ≡ true → H.tells v.hash_store ≡ true → D.content v.data_store ≡ image
        → concat (H.content v.hash_store) ≡ hash_image p image front → IsLineOf p image (length front) v.table
        → HoldsFor D.BlockStore H.BlockStore v image }
{
    verity_check::laws::device_holds();
}
