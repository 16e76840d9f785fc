//! Laws of the definitions alone: why it is enough to make the changes again.
ghost use Rattle.std.specs.Prelude.{◌≡◌, ◌<◌, ◌≤◌, ◌^◌, ◌++◌, Bool, List, ℕ, length, Some};
ghost use Rattle.verity_journal.specs.Journal.{spelled, read_plan};
ghost use Rattle.verity_journal.specs.Plan.{Side, Plan, IsSide, IsSmall, Amid, made, changed, Fit, Unsynced, chosen};

/// Changes that are made again, over bytes that have any of them in part or whole, make the same.
pub fn again_is_harmless()
    ensures { (side : Side) → IsSide side → (old new : List ℕ) → side.keep ≤ length old → Amid side old new
        → made side new ≡ made side old }
{}

/// A plan is read as it was spelled, whatever stands behind it.
pub fn reads_what_is_spelled()
    ensures { (plan : Plan) → IsSide plan.on_data → IsSide plan.on_hash → IsSmall plan.on_data → IsSmall plan.on_hash
        → length plan.names < 2 ^ 64 → (rest : List ℕ) → read_plan (spelled plan ++ rest) ≡ Some plan }
{}

/// Of writes that aren't synced a stop may leave any, in any combination: not only the first of them.
pub fn any_subset_may_be_left()
    ensures { (changes : List (ℕ × List ℕ)) (bs : List Bool) (old : List ℕ) → Fit (length old) changes
        → Unsynced changes old (changed (chosen bs changes) old) }
{}
