// What a log comes to in the report: which records have a line, and how often data was written again.
#![tactic(auto)]

pub mod account;
pub mod again;
pub mod columns;
pub mod placed;
