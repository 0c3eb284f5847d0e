//! The divider of the clock: it turns units of 1/32,768 s into seconds, some of them shortened or lengthened by the
//! calibration.

#![tactic(auto)]

pub mod calibration;
mod corrections;
pub mod counts;
mod cycle;
pub mod divider;
pub mod length;
pub mod specimens;
