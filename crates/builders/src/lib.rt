// Builders: append and object build, and what writes a container into a lent buffer.
#![tactic(auto)]

pub mod builder;
pub mod join;
pub mod names;
pub mod room;
pub mod search;
