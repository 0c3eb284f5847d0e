//! The words in which the program answers.

use crate::stores::Answer;
use std::fmt;

/// What an end answered, as the report shows it.
#[derive(Clone, Copy)]
pub struct Told(pub Answer);

impl fmt::Display for Told {
    fn fmt<W: fmt::Write>(&self, f: &mut fmt::Formatter<W>) -> fmt::Result {
        match self.0 {
            Ok(()) => write!(f, "stored"),
            Err(fault) => write!(f, "refused with {}", fault.number()),
        }
    }
}
