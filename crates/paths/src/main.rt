// Walks linked objects both ways and prints the two paths side by side. `python3 tools/paths.py` makes the objects (stdin)
// and, with an independent model, the paths (stdout), and says how both are laid out.
#![tactic(auto)]

mod show;

ghost use Rattle.std.specs.Prelude.{◌≡◌};

use clerk::reading::{Lack, Unread, fill, read_tables, take};
use clerk::steps;
use clerk::steps::Held;
use rules::limits::{INSTRUCTION_SIZE, MOST_FUNCTIONS};
use rules::{Image, Table};
use show::{End, InImage, InSource, Line, Place, image_place, slot_bytes, source_place};
use source::{slots_of, walk_source};
use std::io;
use tell::files::{length_of, names, table};
use tell::room::{FILE, INSTRUCTIONS};
use walk::{TooLong, walk_image};

// An object's name and its answers.
const WORDS: usize = 128;

// The image, and the frames that each walk is lent. Arrays of fixed size, cut to what an object fills, and no Vec: a run can't end for
// want of memory.
const IMAGE: usize = 1024;

const FRAMES: usize = 4;

// Why the objects end.
// Each program has ends of its own: replay tells a case that is bad.
#[derive(Clone, Copy, Debug)]
enum Stop {
    // no object is left, or one is cut short or does not fit
    Ended,
    // no line could be written
    Failed(io::Error),
}

impl From<io::Error> for Stop {
    fn from(why: io::Error) -> Stop {
        Stop::Failed(why)
    }
}

impl From<Lack> for Stop {
    fn from(_: Lack) -> Stop {
        Stop::Ended
    }
}

impl From<Unread> for Stop {
    fn from(_: Unread) -> Stop {
        Stop::Ended
    }
}

// An object's header: the lengths of its name and of its answers, the root, and how many lines at most.
#[derive(Clone, Copy)]
struct Header {
    name: u32,
    answers: u32,
    root: u32,
    limit: u32,
}

fn read_header(input: &mut impl io::Read) -> Result<Header, Stop> {
    let mut bytes = [0u8; 16];
    if take(input, &mut bytes).bytes < 16 {
        return Err(Stop::Ended);
    }
    Ok(Header {
        name: wire::u32_at(&bytes, 0),
        answers: wire::u32_at(&bytes, 4),
        root: wire::u32_at(&bytes, 8),
        limit: wire::u32_at(&bytes, 12),
    })
}

// Where a row's slots begin in table 6, which has so many rows at most.
// Not source's first_slot: that asks a checked table 3 and a row of it, and what is printed may be any object.
fn first_of(functions: &[u8], row: usize) -> usize {
    let mut first = 0;
    for k in 0..row.min(MOST_FUNCTIONS) {
        first += slots_of(functions, k) as usize;
    }
    first
}

// An object, with its answers as the walks are lent them.
#[derive(Clone, Copy)]
struct Object<'a> {
    file: &'a [u8],
    answers: &'a [u8],
    root: u32,
    limit: u32,
}

impl Object<'_> {
    // The source walk after k steps.
    fn source_at(self, instructions: &[u8], k: usize) -> Place<InSource> {
        let mut frames = [rules::Place { row: 0, slot: 0 }; FRAMES];
        match walk_source(
            names(self.file),
            instructions,
            self.root,
            &mut frames,
            self.answers,
            k,
        ) {
            Ok(stand) => source_place(stand),
            Err(_) => Place {
                at: None,
                end: End::Refused,
            },
        }
    }

    // The image walk after k steps.
    fn image_at(self, image: &[u8], k: usize) -> Place<InImage> {
        let mut frames = [0i64; FRAMES];
        match walk_image(image, &mut frames, self.answers, k) {
            Ok(stand) => image_place(stand),
            Err(TooLong) => Place {
                at: None,
                end: End::TooLong,
            },
        }
    }

    // Both after k steps.
    fn line<'a>(self, instructions: &'a [u8], image: &'a [u8], step: usize) -> Line<'a> {
        let source = self.source_at(instructions, step);
        let linked = self.image_at(image, step);
        let functions = table(self.file, Table::Functions);
        Line {
            step,
            source,
            source_bytes: match source.at {
                Some(at) => slot_bytes(instructions, first_of(functions, at.row), at.slot),
                None => None,
            },
            image: linked,
            image_bytes: match linked.at {
                Some(at) => slot_bytes(image, 0, at.slot),
                None => None,
            },
        }
    }

    // Step by step, until one of the two walks does not stand. A line goes out by one call.
    fn walks(self, rt: &impl Print, instructions: &[u8], image: &[u8]) -> io::Result<()> {
        println!(rt; " step |  row slot depth bytes | slot depth bytes")?;
        for step in 0..self.limit as usize {
            let line = self.line(instructions, image, step);
            println!(rt; "{line}")?;
            if line.source.end != End::Stands || line.image.end != End::Stands {
                break;
            }
        }
        Ok(())
    }

    // The map step, then the link, then both walks.
    fn run(self, rt: &impl Print, instructions: &mut [u8]) -> io::Result<()> {
        let Ok(_) = steps::map_step(self.file, instructions) else {
            return println!(rt; "the map step refuses");
        };
        let mut slots = [0u8; IMAGE];
        let mut image = Image {
            slots: &mut slots,
            func_info: &mut [0u8; 8],
            line_info: &mut [0u8; 8],
        };
        let held = Held {
            file: self.file,
            instructions,
        };
        let Ok(counts) = steps::link(held, self.root, &mut image) else {
            return println!(rt; "the link refuses");
        };
        let used = IMAGE.min(INSTRUCTION_SIZE * counts.0 as usize);
        self.walks(rt, instructions, &slots[..used])
    }
}

fn one_object(rt: &impl Print, input: &mut impl io::Read) -> Result<(), Stop> {
    let header = read_header(input)?;
    let mut words = [0u8; WORDS];
    let all = header.name as usize + header.answers as usize;
    fill(input, &mut words, 0, all)?;
    let mut file = [0u8; FILE];
    let mut instructions = [0u8; INSTRUCTIONS];
    read_tables(input, true, &mut file, &mut instructions)?;
    let (name, answers) = words[..WORDS.min(all)].split_at(WORDS.min(header.name as usize));
    let object = Object {
        file: &file,
        answers,
        root: header.root,
        limit: header.limit,
    };
    let n = INSTRUCTIONS.min(length_of(&file, Table::Instructions) as usize);
    rt.write_all(name)?;
    println!(rt)?;
    object.run(rt, &mut instructions[..n])?;
    println!(rt)?;
    Ok(())
}

// A proved loop has to end, and nothing says that the input does. So the objects are counted, up to a number that no run reaches.
fn main(rt: HostRuntime) -> io::Result<()> {
    let mut input = rt.reader();
    for _ in 0..u64::MAX {
        match one_object(&rt, &mut input) {
            Ok(()) => {}
            Err(Stop::Ended) => break,
            Err(Stop::Failed(why)) => return Err(why),
        }
    }
    Ok(())
}
