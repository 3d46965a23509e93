/// Who asks for a timestamp: the `ask`-th ask of a line, or of its heartbeat.
#[derive(Clone, Copy, Debug, PartialEq, Eq)]
pub struct Asker {
    pub line: u64,
    pub beat: bool,
    pub ask: u64,
}
