// The edits: look-up and delete by a path, concat, strip.
#![tactic(auto)]

pub mod delete;
pub mod find;
pub mod keypath;
pub mod members;
pub mod merge;
pub mod operator;
pub mod path;
pub mod strip;
