// Sentences, written out: answers on standard output, and what went wrong on standard error. The words are tell's.
ghost use Rattle.std.specs.Prelude.{◌≡◌, true};
ghost use Rattle.clerk.specs.Status.{either, status_in, status_of, read_status};

use crate::reading::Unread;
use crate::status::Stop;
use std::fmt::{Display, Formatter, Write};
use std::{fmt, io};
use tell::lines::{Words, spoken_line};
use tell::room::SHOWN_PIECES;
use tell::text::{
    CANNOT_END, CANNOT_READ, END, ENDS_WITHIN, GOES_ON, IMAGE_FILE, NEEDS, NO_LENGTHS, PIECES_FILE,
    RUN_ENDS, RUN_TOO_LARGE, TABLES_FILE, TEXT, TOO_LARGE, TOO_LONG,
};
use tell::words::{Sentence, Told, Wording, answer, of_file, of_part};

// A name, which need not be text.
#[derive(Clone, Copy)]
struct Name<'a>(&'a [u8]);

impl Display for Name<'_> {
    fn fmt<W: fmt::Write>(&self, f: &mut Formatter<W>) -> fmt::Result {
        match str::from_utf8(self.0) {
            Ok(text) => f.write_str(text),
            Err(_) => write!(f, "{}", self.0.escape_ascii()),
        }
    }
}

// The system's words for an error, without the number that std puts after them.
#[derive(Clone, Copy)]
struct Reason(io::Error);

// What std puts between the two.
const NUMBER: &str = " (os error ";

// Takes words up to the number.
#[derive(Drop)]
struct Unnumbered<'a, W> {
    words: &'a mut W,
    ended: bool,
}

impl<W: fmt::Write> fmt::Write for Unnumbered<'_, W> {
    fn write_str(&mut self, s: &str) -> fmt::Result {
        if self.ended {
            return Ok(());
        }
        let Some((words, _)) = s.split_once(NUMBER) else {
            return self.words.write_str(s);
        };
        self.ended = true;
        self.words.write_str(words)
    }
}

impl Display for Reason {
    fn fmt<W: fmt::Write>(&self, f: &mut Formatter<W>) -> fmt::Result {
        let mut words = Unnumbered {
            words: f,
            ended: false,
        };
        write!(words, "{}", self.0)
    }
}

// What failed and why, a line of its own. A standard error that takes no words is left at that.
fn fail(rt: &impl Eprint, what: &[u8], why: io::Error) {
    let _ = eprintln!(rt; "{}: {}", Name(what), Reason(why));
}

// Standard output took the words, or it is said that it did not.
// That it ends well or for want of output is a clause here, in listing.rt and in writing.rt: an error type of one case would be turned
// into Stop at each `?`.
pub(crate) fn ended(rt: &impl Eprint, written: io::Result<()>) -> Result<(), Stop>
    ensures { either 0 4 (status_in result) ≡ true }
{
    written.map_err(|why| {
        fail(rt, b"standard output", why);
        Stop::NoOutput
    })
}

fn judged(told: Told) -> Result<(), Stop>
    ensures { status_in result ≡ status_of told }
{
    if told.number == 0 {
        Ok(())
    } else {
        Err(Stop::Refused)
    }
}

fn words_of(sentence: Sentence) -> Words {
    spoken_line(TEXT.as_bytes(), &sentence.lines, &sentence.numbers)
}

// A sentence, written out by one call.
pub(crate) fn say(rt: &impl Print, sentence: Sentence) -> io::Result<()> {
    rt.write_all(words_of(sentence).as_bytes())
}

// The same on standard error. What it does not take is lost.
fn warn(rt: &impl Eprint, sentence: Sentence) {
    let _ = rt.eprint(Name(words_of(sentence).as_bytes()));
}

// What a step answered.
pub fn step(rt: &(impl Print + Eprint), told: Told, root: u32, wording: Wording) -> Result<(), Stop>
    ensures { either (status_of told) 4 (status_in result) ≡ true }
{
    ended(rt, say(rt, answer(told, root, wording)))?;
    judged(told)
}

const USE: &str = "usage: bark link TABLES ROOT IMAGE [PIECES]
       bark examine TABLES ROOT IMAGE PIECES
       bark help

link     sets the maps of an object, links a function with all that it calls, writes the image and, if asked, the list of
         its pieces, and lists the image slot by slot
examine  says yes or no: whether an image, whoever linked it, is that function linked, with this list of pieces

  TABLES  the object: eight u32 lengths and the tables 1 to 8
  ROOT    the function's row in table 3, from 0
  IMAGE   three u32 lengths, instructions, function records, line records
  PIECES  two u32 for each piece in the image's order: its function's row, and the slot where it starts

status   0 done, or yes; 1 refused, or no; 2 wrong use; 3 a file cannot be read whole; 4 the output cannot be written
";

pub fn help(rt: &(impl Print + Eprint)) -> Result<(), Stop>
    ensures { either 0 4 (status_in result) ≡ true }
{
    ended(rt, rt.write_all(USE.as_bytes()))
}

pub fn usage(rt: &impl Eprint) -> Result<(), Stop>
    ensures { status_in result ≡ 2 }
{
    let _ = rt.eprint(USE);
    Err(Stop::Usage)
}

// What is wrong with a file, on standard error. The one line that has a number is that for a list that is too long: what bark holds.
pub fn complain(rt: &impl Eprint, file: usize, what: usize) {
    warn(rt, of_file(file, what, SHOWN_PIECES as u32));
}

// A call on a file failed: why, and what that means.
// Path, file, what and why are read once each: a struct of them would be built at each call.
pub fn failed(rt: &impl Eprint, path: &[u8], file: usize, what: usize, why: io::Error) {
    fail(rt, path, why);
    complain(rt, file, what);
}

// The same of a file whose path is not at hand.
// `file` may be any line (tell, text.rt).
pub fn nameless(rt: &impl Eprint, file: usize, what: usize, why: io::Error) {
    let path: &[u8] = match file {
        TABLES_FILE => b"TABLES",
        IMAGE_FILE => b"IMAGE",
        _ => b"PIECES",
    };
    failed(rt, path, file, what, why);
}

// What a file that is not had whole lacks.
pub fn read(rt: &impl Eprint, file: usize, read: Result<(), Unread>) -> Result<(), Stop>
    ensures { status_in result ≡ read_status read }
{
    let Err(unread) = read else {
        return Ok(());
    };
    match unread {
        Unread::NoLengths => complain(rt, file, NO_LENGTHS),
        Unread::Failed(why) => nameless(rt, file, CANNOT_READ, why),
        Unread::Short(table) => {
            let ends = if file == TABLES_FILE {
                ENDS_WITHIN
            } else {
                RUN_ENDS
            };
            warn(rt, of_part(file, ends, table, END, 0, 0));
        }
        Unread::Large {
            table,
            needs,
            holds,
        } => {
            let large = if file == TABLES_FILE {
                TOO_LARGE
            } else {
                RUN_TOO_LARGE
            };
            warn(rt, of_part(file, large, table, NEEDS, needs, holds));
        }
        Unread::GoesOn => {
            let long = if file == PIECES_FILE {
                TOO_LONG
            } else {
                GOES_ON
            };
            complain(rt, file, long);
        }
        Unread::NotClosed => complain(rt, file, CANNOT_END),
    }
    Err(Stop::NoInput)
}
