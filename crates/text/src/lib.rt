//! From the bytes of a rule text to a table of lines.
#![tactic(auto)]

pub mod fault;
mod from_token;
pub mod keyword;
mod line_reader;
mod numeral;
pub mod reader;
mod scan;
pub mod table;
pub mod text_lines;
pub mod token;
