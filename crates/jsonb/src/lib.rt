// The functions for C of every crate below. Crate jsonb_c exports them: a crate is a library or a static library, not both.
#![tactic(auto)]

pub mod c;
