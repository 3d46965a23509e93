/// What a plan of a request answers that did not fail. A further kind of request is a further variant.
#[derive(Clone, Copy, Debug, PartialEq, Eq)]
pub enum Fetched {
    /// All that the request names was done.
    Nothing,
}
