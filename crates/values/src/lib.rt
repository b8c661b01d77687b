// Equal values: whether two records have one value, and the grade of a record against the one that was expected.
#![tactic(auto)]

pub mod grade;
mod members;
pub mod value;
