//! The editors that a volume is opened by: over the whole volume, or under a trusted table line.

ghost use Rattle.std.specs.Prelude.{◌≡◌, ℕ, Bool, List, IfOk};
ghost use Rattle.verity_superblock.specs.Superblock.{Volume};
ghost use Rattle.verity_edit.specs.declared.command.Command.{Command};
ghost use Rattle.verity_edit.specs.declared.command.Committed.{Committed};
ghost use Rattle.verity_edit.specs.declared.command.Reply.{Reply};

use verity_digest::Digest;
use verity_edit::{Command, Committed, EditFault, Editor, Reply};
use verity_store::BlockStore;
use verity_superblock::Superblock;
use verity_trusted::LineEditor;

/// An editor of a volume.
pub trait Edits: Drop {
    /// How many blocks the working image has.
    ghost count: { Self → ℕ };

    /// What the committed superblock says.
    ghost volume: { Self → Volume };

    /// The committed root hash.
    ghost root_hash: { Self → List ℕ };

    /// Whether a commit failed after its first change.
    ghost is_broken: { Self → Bool };

    /// A command leads from one to the other with this reply.
    ghost answers: { (A : Type 0) → Command A → Self → Self → Reply → Type 0 };

    /// A commit that was made leads from one to the other.
    ghost commits: { Self → Self → Committed → Type 0 };

    /// The working count of data blocks.
    fn blocks(&self) -> u64
        ensures { result ≡ count self.now };

    /// The committed superblock.
    fn superblock(&self) -> &Superblock
        ensures { result.now ≡ volume self.now };

    /// The committed root hash.
    fn root(&self) -> Digest
        ensures { result ≡ root_hash self.now };

    /// Whether a commit failed after its first change.
    fn broken(&self) -> bool
        ensures { result ≡ is_broken self.now };

    /// Does one command and gives its reply, which tells of a commit only where that is the command. The editor comes back.
    fn answer(self, command: &Command) -> (Self, Reply)
        ensures answered { answers _ command.now self result.0 result.1 }
        ensures committed { (c : Committed) → result.1 ≡ Reply.Committed c → command.now ≡ Command.Commit };

    /// Commits to the stores. The editor comes back.
    fn commit(self) -> (Self, Result<Committed, EditFault>)
        ensures { IfOk result.1 (commits self result.0) };
}

impl<D: BlockStore + Drop, H: BlockStore + Drop> Edits for Editor<D, H> {
    ghost use Rattle.verity_edit.specs.Editing.{Commits};
    ghost use Rattle.verity_edit.specs.Running.{IsAnswered};

    ghost count = { λ e. e.draft.working };

    ghost volume = { λ e. e.volume };

    ghost root_hash = { λ e. e.root };

    ghost is_broken = { λ e. e.broken };

    ghost answers = { λ _ command old new reply. IsAnswered D.BlockStore H.BlockStore command old new reply };

    ghost commits = { Commits D.BlockStore H.BlockStore };

    fn blocks(&self) -> u64 {
        Editor::blocks(self)
    }

    fn superblock(&self) -> &Superblock {
        Editor::superblock(self)
    }

    fn root(&self) -> Digest {
        Editor::root(self)
    }

    fn broken(&self) -> bool {
        Editor::broken(self)
    }

    fn answer(self, command: &Command) -> (Self, Reply) {
        let mut editor = self;
        let reply = Editor::answer(&mut editor, command);
        (editor, reply)
    }

    fn commit(self) -> (Self, Result<Committed, EditFault>) {
        let mut editor = self;
        let done = Editor::commit(&mut editor);
        (editor, done)
    }
}

impl<D: BlockStore + Drop, H: BlockStore + Drop> Edits for LineEditor<D, H> {
    ghost use Rattle.verity_trusted.specs.Line.{CommitsUnder, IsAnsweredUnder};

    ghost count = { λ e. e.draft.working };

    ghost volume = { λ e. e.volume };

    ghost root_hash = { λ e. e.table.root };

    ghost is_broken = { λ e. e.broken };

    ghost answers = { λ _ command old new reply. IsAnsweredUnder D.BlockStore H.BlockStore command old new reply };

    ghost commits = { CommitsUnder D.BlockStore H.BlockStore };

    fn blocks(&self) -> u64 {
        LineEditor::blocks(self)
    }

    fn superblock(&self) -> &Superblock {
        LineEditor::superblock(self)
    }

    fn root(&self) -> Digest {
        LineEditor::root(self)
    }

    fn broken(&self) -> bool {
        LineEditor::broken(self)
    }

    fn answer(self, command: &Command) -> (Self, Reply) {
        LineEditor::answer(self, command)
    }

    fn commit(self) -> (Self, Result<Committed, EditFault>) {
        LineEditor::commit(self)
    }
}
