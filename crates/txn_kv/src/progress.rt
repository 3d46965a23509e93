use crate::errors::Result;

/// How far a call has come: it waits for something that it asked for, or it has ended with this answer.
#[derive(Debug, Drop)]
pub enum Progress<T> {
    Waiting,
    Done(Result<T>),
}
