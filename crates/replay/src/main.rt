// Runs the stored cases of document 01 through the library. `python3 tools/cases.py` makes the cases (stdin) and, with an
// independent model, the answers (stdout), and says how both are laid out.
#![tactic(auto)]

mod input;
mod run;
mod show;

ghost use Rattle.std.specs.Prelude.{◌≡◌};
ghost use Rattle.replay.specs.Input.{word_at, data_in};

use barkruffle::{barkruffle_read, barkruffle_record_number};
use clerk::steps::Held;
use info::{RecordKind, Records};
use input::{
    COUNT, DATA, FILE, FUNCS, Header, IMAGE, INSTRUCTIONS, Kind, LINES, OUT, OUT_FUNC_INFO,
    OUT_LINE_INFO, PLACE_BYTES, PLACES, ROOT, SIZE, Stop, TABLE_6, data, read_case, read_header,
};
use rules::{Image, Program};
use show::Answer;
use std::io;
use std::io::Cursor;

// Outputs are lent with this byte throughout, which no answer leaves where it promises others. They are arrays, cut to what a case asks
// for, and no Vec: a run can't end for want of memory.
const UNTOUCHED: u8 = 0xEE;

// A case, with its tables and data as they are held.
#[derive(Clone, Copy)]
struct Case<'a> {
    index: u64,
    header: Header,
    file: &'a [u8; FILE],
}

impl<'a> Case<'a> {
    fn answer<'b>(self, number: u32, places: &'b [u8]) -> Answer<'b>
        ensures index { result.index ≡ self.entry.index }
        ensures kind { result.kind ≡ self.entry.header.kind }
        ensures number { result.number ≡ number }
        ensures places { result.places.now ≡ places.now }
    {
        Answer {
            index: self.index,
            kind: self.header.kind,
            number,
            places,
        }
    }

    fn link(self, out: &mut impl io::Write, instructions: &'a [u8]) -> io::Result<()> {
        let Case { header, file, .. } = self;
        let mut slots = [UNTOUCHED; IMAGE];
        let mut func_info = [UNTOUCHED; FUNCS];
        let mut line_info = [UNTOUCHED; LINES];
        let mut places = [UNTOUCHED; PLACE_BYTES];
        let n = header.part(OUT, IMAGE);
        let m = header.part(OUT_FUNC_INFO, FUNCS);
        let l = header.part(OUT_LINE_INFO, LINES);
        let places = &mut places[..header.part(PLACES, PLACE_BYTES)];
        let mut image = Image {
            slots: &mut slots[..n],
            func_info: &mut func_info[..m],
            line_info: &mut line_info[..l],
        };
        let held = Held { file, instructions };
        let number = run::link(held, header.word(ROOT), &mut image, places);
        let linked = Program {
            instructions: &slots[..n],
            func_info: &func_info[..m],
            line_info: &line_info[..l],
        };
        show::link(out, self.answer(number, places), linked)
    }

    fn map_step(self, out: &mut impl io::Write, instructions: &mut [u8]) -> io::Result<()> {
        let mut places = [UNTOUCHED; PLACE_BYTES];
        let places = &mut places[..self.header.part(PLACES, PLACE_BYTES)];
        let file = self.file;
        let number = run::map_step(file, instructions, places);
        show::output(out, self.answer(number, places), instructions)
    }

    // What a reader is given.
    fn records(self, kind: RecordKind) -> Records<'a>
        ensures kind { result.kind ≡ kind }
        ensures size { result.size ≡ word_at self.entry.header.bytes 11 }
        ensures count { result.count ≡ word_at self.entry.header.bytes 12 }
        ensures bytes { result.bytes.now ≡ data_in self.entry.file.now (word_at self.entry.header.bytes 13) }
    {
        let Case { header, file, .. } = self;
        Records {
            kind,
            size: header.word(SIZE),
            count: header.word(COUNT),
            bytes: data(file, header.word(DATA) as usize),
        }
    }

    fn all_records(self, out: &mut impl io::Write, kind: RecordKind) -> io::Result<()> {
        let mut rows = [UNTOUCHED; LINES];
        let mut places = [UNTOUCHED; PLACE_BYTES];
        let rows = &mut rows[..self.header.part(OUT, LINES)];
        let places = &mut places[..self.header.part(PLACES, PLACE_BYTES)];
        let number = barkruffle_read(self.records(kind), rows, places);
        show::output(out, self.answer(number, places), rows)
    }

    fn one_record(self, out: &mut impl io::Write, kind: RecordKind) -> io::Result<()> {
        let mut places = [UNTOUCHED; PLACE_BYTES];
        let places = &mut places[..self.header.part(PLACES, PLACE_BYTES)];
        let records = self.records(kind);
        let k = self.header.word(ROOT);
        let number = barkruffle_record_number(records, k, places);
        show::record(out, self.answer(number, places), records.record(k))
    }
}

// A case after its header, and the line of what it answers. A function of its own: the buffers are made where it begins, so once.
fn run_case(
    input: &mut impl io::Read,
    out: &mut impl io::Write,
    index: u64,
    header: Header,
) -> Result<(), Stop> {
    let mut file = [0u8; FILE];
    let mut instructions = [0u8; TABLE_6];
    read_case(input, &header, &mut file, &mut instructions)?;
    let instructions = &mut instructions[..header.part(INSTRUCTIONS, TABLE_6)];
    let case = Case {
        index,
        header,
        file: &file,
    };
    match header.kind {
        Kind::Link => case.link(out, instructions)?,
        Kind::MapStep => case.map_step(out, instructions)?,
        Kind::Records(kind) => case.all_records(out, kind)?,
        Kind::Record(kind) => case.one_record(out, kind)?,
    }
    Ok(())
}

fn one_case(input: &mut impl io::Read, out: &mut impl io::Write, index: u64) -> Result<(), Stop> {
    let header = read_header(input)?;
    run_case(input, out, index, header)
}

// Room for a line: its seven numbers and the place buffer take 120 bytes at most.
const LINE_ROOM: usize = 256;

// A line goes out by one call.
fn say(rt: &impl Print, line: &Cursor<[u8; LINE_ROOM]>) -> io::Result<()> {
    let n = LINE_ROOM.min(line.position() as usize);
    rt.write_all(&line.get_ref()[..n])
}

// A proved loop has to end, and nothing says that the input does. So the cases are counted, up to a number that no run reaches.
fn main(rt: HostRuntime) -> io::Result<()> {
    let mut input = rt.reader();
    for index in 0..u64::MAX {
        let mut line = Cursor::new([0u8; LINE_ROOM]);
        match one_case(&mut input, &mut line, index) {
            Ok(()) => say(&rt, &line)?,
            Err(Stop::Ended) => break,
            Err(Stop::Bad) => return println!(rt; "bad case"),
            Err(Stop::Failed(why)) => return Err(why),
        }
    }
    Ok(())
}
