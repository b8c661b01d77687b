// What an edit would do: document 02 §3.
#![tactic(auto)]

pub mod preview;
