/// What a `begin` asks for beside its kind.
#[derive(Clone, Copy, Debug, Default, PartialEq, Eq)]
pub struct BeginOptions {
    /// Locks in its way are not resolved.
    pub no_locks: bool,
    /// Errors of regions are not tried again.
    pub no_regions: bool,
}
