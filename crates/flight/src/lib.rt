// The flight profile: document 02 §5. The board's small loader takes less than the layout allows.
#![tactic(auto)]

pub mod edit;
pub mod profile;
