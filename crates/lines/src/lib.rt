// The lines that hallrun reads and prints.
#![tactic(auto)]

pub mod digits;
pub mod line;
pub mod output;
pub mod text;
