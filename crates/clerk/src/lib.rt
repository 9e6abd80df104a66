// The work on the tool's files: tables, an image and its pieces are read, the steps and the examination are done over the tables as they are
// held, an image and its pieces are written, sentences and the listing are written out; and the exit status.
#![tactic(auto)]

pub mod files;
pub mod listing;
pub mod reading;
pub mod status;
pub mod steps;
pub mod telling;
pub mod writing;
