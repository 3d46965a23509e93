//! What is true of the steps of a buffer: theorems over definitions alone.
ghost use Rattle.std.specs.Prelude.{◌≡◌, ℕ, List, Option};
ghost use Rattle.txn_buffer.specs.Contents.{Contents, filled, locked, unlocked};
ghost use Rattle.txn_buffer.specs.Overlay.{Pairs};
ghost use Rattle.txn_buffer.specs.Reads.{filled_all, writes};

/// Locks, their release and reads leave what a transaction writes as it was.
pub fn only_writes_write()
    ensures locked { (contents : Contents) (key : List ℕ) → writes (locked contents key) ≡ writes contents }
    ensures unlocked { (contents : Contents) (key : List ℕ) → writes (unlocked contents key) ≡ writes contents }
    ensures filled { (contents : Contents) (key : List ℕ) (value : Option (List ℕ)) → writes (filled contents key value) ≡ writes contents }
    ensures all_filled { (contents : Contents) (pairs : Pairs) → writes (filled_all contents pairs) ≡ writes contents }
{}
