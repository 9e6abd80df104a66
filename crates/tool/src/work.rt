// What both subcommands begin with: the tables are read, and the maps set.
ghost use Rattle.std.specs.Prelude.{◌≡◌, length};
ghost use Rattle.tell.specs.Room.{file_room, instructions_room};

use crate::examining::examine_root;
use crate::linking::link_root;
use clerk::files::{TABLES, name};
use clerk::reading::{Unread, finish, read_tables};
use clerk::status::Stop;
use clerk::steps::{Held, map_step};
use clerk::telling;
use rules::Table;
use std::env::Env;
use std::fs::{File, Files};
use std::io;
use tell::files::length_of;
use tell::room::{FILE, INSTRUCTIONS, PATH};
use tell::text::{APPLIED, CANNOT_OPEN, MAP_STEP, NO_MAPS, NO_NAME, TABLES_FILE};
use tell::words::{Told, Wording};

#[derive(Clone, Copy, PartialEq, Eq)]
pub enum Task {
    Link,
    LinkPieces,
    Examine,
}

impl Task {
    // How the words of a refused map step begin: an examination then says no.
    fn no_maps(self) -> usize {
        match self {
            Task::Examine => NO_MAPS,
            _ => MAP_STEP,
        }
    }
}

// Three steps with other arguments each: a closure handed down from lib.rt would be no plainer than its name.
// File and table 6 are a Held only after the map step, which writes to table 6.
fn with_maps(
    rt: &(impl Env + Files + Print + Eprint),
    task: Task,
    root: u32,
    file: &[u8],
    instructions: &mut [u8],
) -> Result<(), Stop> {
    let answer = map_step(file, instructions);
    let wording = Wording {
        accepts: MAP_STEP,
        refuses: task.no_maps(),
        done: APPLIED,
    };
    telling::step(rt, Told::from(answer), root, wording)?;
    let held = Held { file, instructions };
    match task {
        Task::Link => link_root(rt, root, held, false),
        Task::LinkPieces => link_root(rt, root, held, true),
        Task::Examine => examine_root(rt, root, held),
    }
}

// Argument i, opened to be read. `file` is the text's line that names it. What goes wrong is said.
pub(crate) fn open<R: Env + Files + Eprint>(
    rt: &R,
    i: usize,
    file: usize,
) -> Result<R::File, Stop> {
    let mut room = [0u8; PATH];
    let path = name(rt, i, &mut room).map_err(|why| {
        telling::nameless(rt, file, NO_NAME, why);
        Stop::NoInput
    })?;
    File::open(rt, path).map_err(|why| {
        telling::failed(rt, path.as_bytes(), file, CANNOT_OPEN, why);
        Stop::NoInput
    })
}

// A whole tables file, to its end.
fn read<F: io::Read + Drop>(
    mut tables: F,
    file: &mut [u8; FILE],
    instructions: &mut [u8; INSTRUCTIONS],
) -> Result<(), Unread>
    ensures { (length file.new ≡ file_room) × (length instructions.new ≡ instructions_room) }
{
    read_tables(&mut tables, true, file, instructions)?;
    finish(tables)
}

pub fn bark(rt: &(impl Env + Files + Print + Eprint), task: Task, root: u32) -> Result<(), Stop> {
    let tables = open(rt, TABLES, TABLES_FILE)?;
    let mut file = [0u8; FILE];
    let mut instructions = [0u8; INSTRUCTIONS];
    telling::read(rt, TABLES_FILE, read(tables, &mut file, &mut instructions))?;
    // an array of fixed size too, of which the file's own length counts
    let n = (length_of(&file, Table::Instructions) as usize).min(instructions.len());
    with_maps(rt, task, root, &file, &mut instructions[..n])
}
