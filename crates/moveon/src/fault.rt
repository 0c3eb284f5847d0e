//! Why a line cannot be read.
use crate::digits::CountFault;
use thiserror::Error;

/// What is wrong with a line.
#[derive(Clone, Copy, PartialEq, Eq, Debug, Error)]
pub enum LineFaultKind {
    #[error("a location byte is missing")]
    MissingByte,
    #[error("expected two hex digits")]
    NotHexByte,
    #[error("the count of seconds is missing")]
    MissingCount,
    #[error(transparent)]
    Count(CountFault),
    #[error("nothing may follow the count")]
    AfterCount,
}

/// Why a line cannot be read, and at which column, counted from 1.
#[derive(Clone, Copy, PartialEq, Eq, Debug, Error)]
#[error("column {column}: {kind}")]
pub struct LineFault {
    pub column: usize,
    pub kind: LineFaultKind,
}
