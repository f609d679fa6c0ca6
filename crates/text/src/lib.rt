// Text on lists of bytes: the words and the numbers of an input, and a text that is made of bytes and decimal numbers.
#![tactic(auto)]

pub mod input;
pub mod output;
