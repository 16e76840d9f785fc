//! The head of a journal, and what the first bytes of a file say of it.
ghost use Rattle.std.specs.Prelude.{◌≡◌, ◌↔◌, ◌++◌, ◌∷◌, [], None, IfSome, IfNone, IsTrue};
ghost use Rattle.verity_journal.specs.Journal.{behind, head, IsBegun, Says};

/// What each journal begins with: the magic `dalgjrnl`, and the version, of four bytes, the lowest first.
pub const HEAD: [u8; 12] = *b"dalgjrnl\x01\0\0\0";

/// A head, and a closed gate behind it.
pub const SHUT: [u8; 13] = *b"dalgjrnl\x01\0\0\0\0";

/// How many bytes a journal's head and gate take.
pub const GATE_END: u64 = 13;

/// What the first bytes of a file say of it.
#[derive(Clone, Copy, Debug, PartialEq, Eq)]
pub enum Gate {
    /// No more than a beginning of a journal's head stands there: the journal was being made, or nothing is there.
    Begun,
    /// No commit is under way.
    Closed,
    /// A commit is under way, where a whole plan stands behind.
    Open,
    /// It is no journal, or one of another version.
    Foreign,
}

/// What stands behind the head of a journal; none where bytes don't begin with it.
pub fn behind_head(bytes: &[u8]) -> Option<&[u8]>
    ensures some { IfSome result (λ rest. bytes.now ≡ head ++ rest.now) }
    ensures none { IfNone result (behind head bytes.now ≡ None) }
{
    bytes.strip_prefix(&HEAD)
}

/// Whether bytes are no more than a beginning of the head.
fn is_begun(bytes: &[u8]) -> bool
    ensures { IsTrue result ↔ IsBegun bytes.now }
{
    HEAD.starts_with(bytes)
}

/// What the first bytes of a file say of it, of which 13 are enough.
pub fn gate_of(bytes: &[u8]) -> Gate
    ensures { Says bytes.now result }
{
    match behind_head(bytes) {
        Some([0, ..]) => Gate::Closed,
        Some([_, ..]) => Gate::Open,
        Some([]) => Gate::Begun,
        None if is_begun(bytes) => Gate::Begun,
        None => Gate::Foreign,
    }
}
