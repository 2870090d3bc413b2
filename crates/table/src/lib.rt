// Any words as a table: its header, its rows by position, the data of a row, and whether the words are a table at all.
#![tactic(auto)]

pub mod header;
pub mod judge;
pub mod rows;
pub mod words;
