// Runs: whole lists of edits over a growing row of records. What holds of every edit is specs/Demand2.antt, and of every two runs
// specs/Demand.antt.
#![tactic(auto)]

pub mod call;
