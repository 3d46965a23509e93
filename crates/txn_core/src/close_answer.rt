/// What a user is told who lets a transaction go. One that was neither committed nor rolled back asks for a panic, a warning
/// or nothing, as its options say.
#[derive(Clone, Copy, Debug, PartialEq, Eq)]
pub enum CloseAnswer {
    WouldPanic,
    Warned,
    Clean,
}
