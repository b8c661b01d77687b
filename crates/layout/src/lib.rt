// The layout of a record in bytes: entries, headers, numbers, text, the check, the walks, and parts by their places.
#![tactic(auto)]

pub mod check;
pub mod constants;
pub mod decimal;
pub mod ending;
pub mod every;
pub mod item;
pub mod iterator;
pub mod jentry;
pub mod number;
pub mod order;
pub mod parts;
pub mod refusal;
pub mod sound;
pub mod table;
pub mod utf8;
pub mod util;
pub mod writer;
