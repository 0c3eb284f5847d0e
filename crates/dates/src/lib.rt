//! Dates of a calendar with two digits of the year: which exist, the one that follows, the one some days later.

#![tactic(auto)]

pub mod date;
pub mod later;
pub mod months;
