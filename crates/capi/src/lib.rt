#![tactic(auto)]

mod flat;
pub mod reading;
mod rows;
pub mod sessions;
pub mod stepping;
pub mod writing;
