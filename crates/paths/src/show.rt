// What a line says of the two walks.
ghost use Rattle.std.specs.Prelude.{◌≡◌, ◌+◌, ℕ, Option, Some};
ghost use Rattle.paths.specs.Shown.{source_at, image_at, place_shown, source_shown, image_shown, SlotIn, end_text, source_text, image_text, bytes_text, where_text, line_text};

use rules::limits::INSTRUCTION_SIZE;
use std::fmt;
use std::fmt::{Display, Formatter, Write};
use walk::{Stand, slot_in};

// A line shows slots below this number.
const MOST_SHOWN: u32 = 0xFFFF_FFFF;

// How a walk goes on.
#[derive(Clone, Copy, Debug, PartialEq, Eq)]
pub enum End {
    Stands,
    Stopped,
    Ended,
    Left,
    NoFrame,
    // the tables are refused
    Refused,
    // the image has too many slots
    TooLong,
}

impl Display for End {
    ghost output = { λ e. Some (end_text e) };

    fn fmt<W: fmt::Write>(&self, f: &mut Formatter<W>) -> fmt::Result {
        match self {
            End::Stands => Ok(()),
            End::Stopped => write!(f, "  stopped"),
            End::Ended => write!(f, "  ended"),
            End::Left => write!(f, "  left"),
            End::NoFrame => write!(f, "  no frame"),
            End::Refused => write!(f, "  refused"),
            End::TooLong => write!(f, "  too long"),
        }
    }
}

// A place of the source walk.
#[derive(Clone, Copy, Debug, PartialEq, Eq)]
pub struct InSource {
    pub row: usize,
    pub slot: usize,
    pub depth: usize,
}

impl Display for InSource {
    ghost output = { λ s. Some (source_text s) };

    fn fmt<W: fmt::Write>(&self, f: &mut Formatter<W>) -> fmt::Result {
        let InSource { row, slot, depth } = *self;
        write!(f, " {row:4} {slot:4} {depth:4}")
    }
}

// A place of the image walk.
#[derive(Clone, Copy, Debug, PartialEq, Eq)]
pub struct InImage {
    pub slot: usize,
    pub depth: usize,
}

impl Display for InImage {
    ghost output = { λ s. Some (image_text s) };

    fn fmt<W: fmt::Write>(&self, f: &mut Formatter<W>) -> fmt::Result {
        let InImage { slot, depth } = *self;
        write!(f, " {slot:4} {depth:4}")
    }
}

// Where a walk is, if it is at a slot that a line shows, and how it goes on.
#[derive(Clone, Copy)]
pub struct Place<P> {
    pub at: Option<P>,
    pub end: End,
}

// A place that a walk comes to, as a line shows it.
pub trait Shown: Copy {
    type At;

    ghost shown: { Self → ℕ → Option Self.At };

    // With so many frames used; nothing where no line shows its slot.
    fn shown(self, depth: usize) -> Option<Self::At>
        ensures { result ≡ shown self depth };
}

impl Shown for rules::Place {
    type At = InSource;

    ghost shown = { source_at };

    fn shown(self, depth: usize) -> Option<InSource> {
        let slot = slot_in(self.slot, MOST_SHOWN)?;
        Some(InSource {
            row: self.row,
            slot,
            depth,
        })
    }
}

impl Shown for i64 {
    type At = InImage;

    ghost shown = { image_at };

    fn shown(self, depth: usize) -> Option<InImage> {
        let slot = slot_in(self, MOST_SHOWN)?;
        Some(InImage { slot, depth })
    }
}

pub fn place_of<P: Shown>(stand: Stand<P>) -> Place<P::At>
    ensures { result ≡ place_shown P.shown stand }
{
    let (at, end) = match stand {
        Stand::Standing(here) => (here.at.shown(here.depth), End::Stands),
        Stand::Stopped(at, depth) => (at.shown(depth), End::Stopped),
        Stand::Ended(at) => (at.shown(0), End::Ended),
        Stand::Left => (None, End::Left),
        Stand::NoFrame => (None, End::NoFrame),
    };
    Place { at, end }
}

pub fn source_place(stand: Stand<rules::Place>) -> Place<InSource>
    ensures { result ≡ source_shown stand }
{
    place_of(stand)
}

pub fn image_place(stand: Stand<i64>) -> Place<InImage>
    ensures { result ≡ image_shown stand }
{
    place_of(stand)
}

// The bytes of a slot of a function that begins at `first` in some code, where the code has it.
pub fn slot_bytes(code: &[u8], first: usize, slot: usize) -> Option<&[u8]>
    ensures { SlotIn code.now (first + slot) result }
{
    let at = first.checked_add(slot)?.checked_mul(INSTRUCTION_SIZE)?;
    code.get(at..)?.get(..INSTRUCTION_SIZE)
}

// A slot's bytes, in hexadecimal; nothing where there are none. replay has digits of its own: two programs, and neither lends to the other.
#[derive(Clone, Copy)]
struct Bytes<'a>(Option<&'a [u8]>);

impl Display for Bytes<'_> {
    ghost output = { λ b. Some (bytes_text b.0) };

    fn fmt<W: fmt::Write>(&self, f: &mut Formatter<W>) -> fmt::Result {
        let Some(bytes) = self.0 else {
            return Ok(());
        };
        write!(f, "  ")?;
        for &b in bytes {
            write!(f, "{b:02x}")?;
        }
        Ok(())
    }
}

// Both walks after so many steps, with the bytes of the slots where they are.
#[derive(Clone, Copy)]
pub struct Line<'a> {
    pub step: usize,
    pub source: Place<InSource>,
    pub source_bytes: Option<&'a [u8]>,
    pub image: Place<InImage>,
    pub image_bytes: Option<&'a [u8]>,
}

// What is there, or nothing.
#[derive(Clone, Copy)]
struct Where<P>(Option<P>);

impl<P: Display> Display for Where<P> {
    ghost output = { λ w. where_text P.output w.0 };

    fn fmt<W: fmt::Write>(&self, f: &mut Formatter<W>) -> fmt::Result {
        match &self.0 {
            Some(at) => write!(f, "{at}"),
            None => Ok(()),
        }
    }
}

impl Display for Line<'_> {
    ghost output = { λ l. Some (line_text l) };

    fn fmt<W: fmt::Write>(&self, f: &mut Formatter<W>) -> fmt::Result {
        let step = self.step;
        let at = Where(self.source.at);
        let bytes = Bytes(self.source_bytes);
        let end = self.source.end;
        write!(f, " {step:4} |{at}{bytes}{end}")?;
        let at = Where(self.image.at);
        let bytes = Bytes(self.image_bytes);
        let end = self.image.end;
        write!(f, " |{at}{bytes}{end}")
    }
}
