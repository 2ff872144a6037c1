// Files of cases for the programs that run them: their lines and the tally, words and fields, bytes as hexadecimal digits,
// outputs that must stay as they were, and the report.
#![tactic(auto)]

pub mod fields;
pub mod file;
pub mod hex;
pub mod lines;
pub mod outputs;
pub mod report;
pub mod words;
