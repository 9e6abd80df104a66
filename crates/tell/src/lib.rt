// What the tool bark says and lists, as functions of the bytes that it holds. Nothing here reads or writes a file.
#![tactic(auto)]

pub mod commands;
pub mod files;
pub mod lines;
pub mod listing;
pub mod room;
pub mod text;
pub mod words;
