//! Memories: the one contract for all of them, and the two ends that hold bytes.

#![tactic(auto)]

pub mod byte_memory;
pub mod fault;
pub mod storage;
pub mod word_memory;
