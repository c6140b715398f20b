//! What the timed programs share: noise, a digest of results and a stream into it, faults, and the
//! words of a call.
#![tactic(auto)]

pub mod digest;
pub mod fault;
pub mod noise;
pub mod sink;
pub mod task;
