// What holds of any run of calls, a crash at any moment of it, and the start after it.
ghost use Rattle.std.specs.Prelude.{◌≡◌, ◌∷◌, List, ℕ, Some, slice_get};
ghost use Rattle.ar_served.specs.Kept.{KeptState};
ghost use Rattle.ar_served.specs.declared.entry.Entry.{Entry};
ghost use Rattle.ar_log.specs.Log.{batches_of};
ghost use Rattle.ar_recovery.specs.Recovering.{IsRecovered};
ghost use Rattle.ar_checkpoint.specs.Successor.{log_records};
ghost use Rattle.ar_durable.specs.Crashes.{AreCalls, AreCommitted, HoldsPrefix, HoldsUnits, LeavesPrefix};
ghost use Rattle.ar_durable.specs.Durable.{DurableState};

use ar_media::Media;

/// Law: entries that are committed stay so through any run of calls, a crash at any moment of any of them leaves a file
/// that has them, and so does the array that a start makes of it. A call has no effect.
pub fn committed_entries_last<M: Media>()
    ensures stay { (old : DurableState M) (states : List (DurableState M)) (committed : List Entry)
        → AreCalls M.seen M.may_leave M.moment M.left_since M.is_clean old states
        → AreCommitted M.seen M.may_leave M.is_clean old.store committed old.kept.history
        → (k : ℕ) (state : DurableState M) → slice_get (old ∷ states) k ≡ Some state
        → AreCommitted M.seen M.may_leave M.is_clean state.store committed state.kept.history }
    ensures any_moment { (old : DurableState M) (states : List (DurableState M)) (committed : List Entry)
        → AreCalls M.seen M.may_leave M.moment M.left_since M.is_clean old states
        → AreCommitted M.seen M.may_leave M.is_clean old.store committed old.kept.history
        → (k : ℕ) (before after : DurableState M) → slice_get (old ∷ states) k ≡ Some before
        → slice_get states k ≡ Some after
        → LeavesPrefix M.seen M.may_leave M.moment M.left_since M.is_clean before.store after.store committed
        before.kept.history }
    ensures recovered { (file : List ℕ) (committed history : List Entry) (live : KeptState)
        → HoldsPrefix committed history file → IsRecovered (log_records (batches_of file)) live
        → HoldsUnits live committed history }
{}
