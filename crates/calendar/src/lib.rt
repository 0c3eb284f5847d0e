//! The clock's calendar: its seven locations, the counters behind them, and the alarm.

#![tactic(auto)]

pub mod alarm;
pub mod counters;
pub mod fault;
mod first_match;
pub mod location;
pub mod moving;
pub mod reading;
pub mod specimens;
