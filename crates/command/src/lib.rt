// What the programs have in common: the words of a command line, files, and how a program ends.
#![tactic(auto)]

pub mod end;
pub mod files;
pub mod words;
