// The tool's files by their arguments.
// bark SUBCOMMAND TABLES ROOT IMAGE PIECES
use std::env::{Env, FillError};
use std::io;

pub const SUBCOMMAND: usize = 1;

pub const TABLES: usize = 2;

pub const ROOT: usize = 3;

pub const IMAGE: usize = 4;

pub const PIECES: usize = 5;

// The system's numbers for an argument that is not there, for a name that has no room, and for one that is not text. std has
// no names for them.
const EINVAL: i32 = 22;

const ENAMETOOLONG: i32 = 36;

const EILSEQ: i32 = 84;

fn number_of(why: FillError) -> i32 {
    match why {
        FillError::TooLong => ENAMETOOLONG,
        FillError::NotPresent => EINVAL,
    }
}

// Argument i as the name of a file, held in `room`.
pub fn name<'a>(rt: &impl Env, i: usize, room: &'a mut [u8]) -> io::Result<&'a str> {
    let n = rt
        .arg(i, room)
        .map_err(|why| io::Error::from_raw_os_error(number_of(why)))?;
    str::from_utf8(&room[..n]).map_err(|_| io::Error::from_raw_os_error(EILSEQ))
}
