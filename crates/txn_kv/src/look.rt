use crate::query::PdQuery;

/// What a look-up finds, or what has to be done before it is made again.
#[derive(Debug, PartialEq, Eq, Drop)]
pub enum Look<T> {
    Found(T),
    /// The placement driver has to be asked.
    Query(PdQuery),
    /// Another call has asked for the same region.
    Wait,
}
