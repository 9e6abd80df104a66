// A case as it stands in the input.
ghost use Rattle.std.specs.Prelude.{◌≡◌, ◌<◌, ◌≤◌, IfOk, IsTrue, ◌↔◌, min, length};
ghost use Rattle.replay.specs.Input.{word_at, data_in, code_of, Decodes, HasRoom, IsHeader};

use clerk::reading::{Lack, Unread, fill, read_after, take};
use info::RecordKind;
use std::io;
use tell::files::{TABLES, start_of};

// A case's header: 24 words. The tables' lengths stand from this byte on.
const HEADER: usize = 96;

const LENGTHS: usize = 8;

// Its words, by number.
const MAGIC: usize = 0;

const KIND: usize = 1;

pub const INSTRUCTIONS: usize = 7;

pub const ROOT: usize = 10;

pub const SIZE: usize = 11;

pub const COUNT: usize = 12;

pub const DATA: usize = 13;

pub const OUT: usize = 14;

pub const OUT_FUNC_INFO: usize = 15;

pub const OUT_LINE_INFO: usize = 16;

pub const PLACES: usize = 17;

// The first word of each.
const MARK: u32 = 0x4B52_4142;

// The room for a held tables file with a reader's data, and for table 6.
pub const FILE: usize = 120_354;

pub const TABLE_6: usize = 65_600;

// The room for the outputs: the image; function records; line records, or what a reader writes; place numbers.
pub const IMAGE: usize = 33_000;

pub const FUNCS: usize = 2_100;

pub const LINES: usize = 66_000;

pub const PLACE_BYTES: usize = 16;

// Why a run of cases ends.
// paths has ends of its own, without a bad case.
#[derive(Clone, Copy, Debug)]
pub enum Stop {
    // no case is left
    Ended,
    // what is there is no case, is cut short, or does not fit
    Bad,
    // a line could not be written
    Failed(io::Error),
}

impl From<io::Error> for Stop {
    fn from(why: io::Error) -> Stop {
        Stop::Failed(why)
    }
}

impl From<Lack> for Stop {
    fn from(_: Lack) -> Stop {
        Stop::Bad
    }
}

impl From<Unread> for Stop {
    fn from(_: Unread) -> Stop {
        Stop::Bad
    }
}

// What a case runs.
#[derive(Clone, Copy, PartialEq, Eq)]
pub enum Kind {
    Link,
    MapStep,
    // all records, one after the other
    Records(RecordKind),
    // one of them
    Record(RecordKind),
}

// A number that is no kind's.
#[derive(Clone, Copy, Debug, PartialEq, Eq)]
pub struct UnknownKind(pub u32);

impl TryFrom<u32> for Kind {
    type Error = UnknownKind;

    ghost try_from_gives = { Decodes };

    fn try_from(n: u32) -> Result<Kind, UnknownKind> {
        match n {
            1 => Ok(Kind::Link),
            2 => Ok(Kind::MapStep),
            3 => Ok(Kind::Records(RecordKind::Functions)),
            4 => Ok(Kind::Records(RecordKind::Lines)),
            5 => Ok(Kind::Record(RecordKind::Functions)),
            6 => Ok(Kind::Record(RecordKind::Lines)),
            _ => Err(UnknownKind(n)),
        }
    }
}

impl From<Kind> for u32 {
    ghost from_gives = { λ kind n. n ≡ code_of kind };

    fn from(kind: Kind) -> u32 {
        match kind {
            Kind::Link => 1,
            Kind::MapStep => 2,
            Kind::Records(RecordKind::Functions) => 3,
            Kind::Records(RecordKind::Lines) => 4,
            Kind::Record(RecordKind::Functions) => 5,
            Kind::Record(RecordKind::Lines) => 6,
        }
    }
}

// A header by value.
#[derive(Clone, Copy)]
pub struct Header {
    pub kind: Kind,
    pub bytes: [u8; HEADER],
}

impl Header {
    pub fn word(&self, i: usize) -> u32
        requires { i < 24 }
        ensures { result ≡ word_at self.now.bytes i }
    {
        wire::u32_at(&self.bytes, 4 * i)
    }

    // The number that it has at `i`, or `most` where that is less: so many bytes of a buffer of `most`.
    pub fn part(&self, i: usize, most: usize) -> usize
        requires { i < 24 }
        ensures { (result ≡ min (word_at self.now.bytes i) most) × (result ≤ most) }
    {
        most.min(self.word(i) as usize)
    }

    // Whether the outputs that it asks for are ones that a case may ask for.
    fn has_room(&self) -> bool
        ensures { IsTrue result ↔ HasRoom self.now.kind self.now.bytes }
    {
        let most = if self.kind == Kind::Link {
            IMAGE
        } else {
            LINES
        };
        self.word(OUT) as usize <= most
            && self.word(OUT_FUNC_INFO) as usize <= FUNCS
            && self.word(OUT_LINE_INFO) as usize <= LINES
            && self.word(PLACES) as usize <= PLACE_BYTES
    }
}

// The next case's header.
pub fn read_header(input: &mut impl io::Read) -> Result<Header, Stop>
    ensures { IfOk result (λ header. IsHeader header.kind header.bytes) }
{
    let mut bytes = [0u8; HEADER];
    match take(input, &mut bytes).bytes {
        0 => return Err(Stop::Ended),
        HEADER => {}
        _ => return Err(Stop::Bad),
    }
    if wire::u32_at(&bytes, 4 * MAGIC) != MARK {
        return Err(Stop::Bad);
    }
    let Ok(kind) = Kind::try_from(wire::u32_at(&bytes, 4 * KIND)) else {
        return Err(Stop::Bad);
    };
    let header = Header { kind, bytes };
    if header.has_room() {
        Ok(header)
    } else {
        Err(Stop::Bad)
    }
}

// The n bytes that stand after the tables of a held file, none where it has fewer.
// That the lengths are there is a clause, as in files.rt of tell.
pub fn data(file: &[u8], n: usize) -> &[u8]
    requires { 32 ≤ length file.now }
    ensures { result.now ≡ data_in file.now n }
{
    let Some(rest) = file.get(start_of(file, TABLES)..) else {
        return &[];
    };
    rest.get(..n).unwrap_or(&[])
}

// A case after its header: the tables, and after them the reader's data. It is bad where it does not fit, or the input ends before.
// Two buffers, as clerk's reading has them.
pub fn read_case(
    input: &mut impl io::Read,
    header: &Header,
    file: &mut [u8; FILE],
    instructions: &mut [u8; TABLE_6],
) -> Result<(), Stop>
    ensures { (length file.new ≡ 120354) × (length instructions.new ≡ 65600) }
{
    let lengths = &header.bytes[LENGTHS..];
    read_after(input, false, lengths, file, instructions)?;
    let start = start_of(lengths, TABLES);
    fill(input, file, start, header.word(DATA) as usize)?;
    Ok(())
}
