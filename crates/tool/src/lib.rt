// The tool bark: links an object and writes its image, or examines an image that somebody made, and says what it found.
#![tactic(auto)]

mod examining;
mod linking;
mod work;

ghost use Rattle.std.specs.Prelude.{◌≤◌};

use clerk::files::{ROOT, SUBCOMMAND};
use clerk::status::{Stop, status};
use clerk::telling;
use std::env::{Env, FillError};
use std::fs::Files;
use tell::commands::{Command, asked};
use tell::room::WORD;
use tell::text::{BLANK, NO_NUMBER};
use tell::words::parse;
use work::Task;

// How many arguments there are, the program's name among them.
fn count(rt: &impl Env) -> usize {
    for i in 0..usize::MAX {
        if let Err(FillError::NotPresent) = rt.arg(i, &mut []) {
            return i;
        }
    }
    usize::MAX
}

// What argument i asks for.
// This and root are three lines each: one that takes the reader as a closure would be as long, with a clause on the closure.
fn word(rt: &impl Env, i: usize) -> Option<Command> {
    let mut word = [0u8; WORD];
    let n = rt.arg(i, &mut word).unwrap_or(0);
    asked(&word[..n])
}

fn root(rt: &impl Env) -> Option<u32> {
    let mut digits = [0u8; WORD];
    let n = rt.arg(ROOT, &mut digits).unwrap_or(0);
    parse(&digits[..n])
}

// The task for the root that the arguments name.
fn run(rt: &(impl Env + Files + Print + Eprint), task: Task) -> Result<(), Stop> {
    let Some(row) = root(rt) else {
        telling::complain(rt, NO_NUMBER, BLANK);
        return Err(Stop::Usage);
    };
    work::bark(rt, task, row)
}

// Neither subcommand with its arguments: wrong use, unless it is help with one of them that is asked for.
fn other(rt: &(impl Env + Print + Eprint), count: usize) -> Result<(), Stop> {
    if count == 3 && word(rt, SUBCOMMAND + 1) == Some(Command::Help) {
        telling::help(rt)
    } else {
        telling::usage(rt)
    }
}

fn answered(rt: &(impl Env + Files + Print + Eprint)) -> Result<(), Stop> {
    let count = count(rt);
    match (word(rt, SUBCOMMAND), count) {
        (Some(Command::Help), _) => telling::help(rt),
        (Some(Command::Link), 5) => run(rt, Task::Link),
        (Some(Command::Link), 6) => run(rt, Task::LinkPieces),
        (Some(Command::Examine), 6) => run(rt, Task::Examine),
        (Some(_), _) => other(rt, count),
        (None, _) => telling::usage(rt),
    }
}

// bark with the arguments that the process was started with. Gives the exit status (clerk, status.rt).
pub fn bark_run(rt: &(impl Env + Files + Print + Eprint)) -> u8
    ensures { result ≤ 4 }
{
    status(answered(rt))
}
