/// What is known of a lock's start once its primary was asked.
#[derive(Clone, Copy)]
pub enum Verdict {
    /// It is committed at this version, or rolled back for 0.
    Version { commit_version: u64 },
    /// The lock is a pessimistic one, and the key that it names is not its primary any more. It may be taken away.
    Mismatch,
}
