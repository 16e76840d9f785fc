//! What follows for callers. A function here does nothing; its contract is a law, in the words of `specs/`.
ghost use Rattle.std.specs.Prelude.{◌≡◌, ◌⊎◌, ℕ, List, length};
ghost use Rattle.verity_digest.specs.Tree.{Hashing, root};
ghost use Rattle.verity_chain.specs.Table.{Table};
ghost use Rattle.verity_chain.specs.Right.{Fits, Clash};
ghost use Rattle.verity_chain.specs.Stores.{hash_given};
ghost use Rattle.verity_edit.specs.declared.command.Committed.{Committed};
ghost use Rattle.verity_edit.specs.Draft.{edits_of, is_changed};
ghost use Rattle.verity_trusted.specs.Line.{CommitsUnder, LineEditing};
ghost use Rattle.verity_trusted.specs.Under.{line_given};
ghost use Rattle.verity_update.specs.Update.{IsUpdateOf, Updates, line_of_new};

use verity_store::BlockStore;

/// An update has the root of the image that it was made of.
pub fn update_has_the_root()
    ensures { (h : Hashing) (new image : List (List ℕ)) → IsUpdateOf h new image → root h image ≡ root h new }
{}

/// What an editor under a table line commits after an update by that line's tree has the line of NEW: of the blocks that NEW gave, their
/// count and the root of their tree. Or the hash store that the update read gave a clash in it, or the editor's own in the commit.
pub fn committed_line_is_of_new<D: BlockStore, H: BlockStore, K: BlockStore, N: BlockStore>()
    ensures { (t : Table) (h h' : _) (s s' : _) (old new : LineEditing _ _) (committed : Committed)
        → (updated : Updates H.BlockStore N.BlockStore t h h' s s' (λ image. (edits_of image old.draft).working)
        (is_changed old.draft))
        → CommitsUnder D.BlockStore K.BlockStore old new committed → old.table ≡ t → (image : List (List ℕ)) → Fits t image
        → (new.table ≡ line_of_new t updated.new)
        ⊎ Clash t (hash_given H.BlockStore t (length (H.given h)) h') image
        ⊎ Clash t (line_given K.BlockStore t (length (K.given old.hash_store)) new.hash_store) image }
{}
