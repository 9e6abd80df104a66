// A line of the output: index, kind and number, the place buffer, and checksums.
ghost use Rattle.std.specs.Prelude.{◌≡◌, OnOk, Some};
ghost use Rattle.std.specs.Io.KnownBytes.{Appends};
ghost use Rattle.replay.specs.Shown.{checksum, hex_digits, head_of, link_line, output_line, record_line};

use crate::input::Kind;
use rules::Program;
use std::fmt::{Display, Formatter, Write};
use std::{fmt, io};

// s = s * 31 + byte, modulo 2^32, from 1.
fn checksum(bytes: &[u8]) -> u32
    ensures { result ≡ checksum bytes.now }
{
    let mut sum: u32 = 1;
    for b in bytes {
        sum = sum.wrapping_mul(31).wrapping_add(u32::from(*b));
    }
    sum
}

// Bytes, in hexadecimal.
// paths has this loop too: a crate for its three lines would be no plainer.
#[derive(Clone, Copy)]
struct Hex<'a>(&'a [u8]);

impl Display for Hex<'_> {
    ghost output = { λ h. Some (hex_digits h.0.now) };

    fn fmt<W: fmt::Write>(&self, f: &mut Formatter<W>) -> fmt::Result {
        let bytes = self.0;
        for &b in bytes {
            write!(f, "{b:02x}")?;
        }
        Ok(())
    }
}

// What a case answered: each line begins so.
#[derive(Clone, Copy)]
pub struct Answer<'a> {
    pub index: u64,
    pub kind: Kind,
    pub number: u32,
    pub places: &'a [u8],
}

impl Display for Answer<'_> {
    ghost output = { λ a. Some (head_of a) };

    fn fmt<W: fmt::Write>(&self, f: &mut Formatter<W>) -> fmt::Result {
        let index = self.index;
        let kind = u32::from(self.kind);
        let number = self.number;
        let places = Hex(self.places);
        write!(f, "{index} {kind} {number} | {places} |")
    }
}

// A link, with the checksums of its three outputs.
pub fn link<W: io::Write>(out: &mut W, answer: Answer<'_>, image: Program) -> io::Result<()>
    ensures { OnOk result (Appends (W.contents out.old) (W.contents out.new)
        (link_line answer.entry image.entry.instructions.now image.entry.func_info.now image.entry.line_info.now)) }
{
    let slots = checksum(image.instructions);
    let funcs = checksum(image.func_info);
    let lines = checksum(image.line_info);
    writeln!(out, "{answer} {slots} {funcs} {lines}")
}

// What else fills one output.
pub fn output<W: io::Write>(out: &mut W, answer: Answer<'_>, bytes: &[u8]) -> io::Result<()>
    ensures { OnOk result (Appends (W.contents out.old) (W.contents out.new)
        (output_line answer.entry bytes.now)) }
{
    let sum = checksum(bytes);
    writeln!(out, "{answer} {sum}")
}

// A record, with its length.
pub fn record<W: io::Write>(out: &mut W, answer: Answer<'_>, found: &[u8]) -> io::Result<()>
    ensures { OnOk result (Appends (W.contents out.old) (W.contents out.new)
        (record_line answer.entry found.now)) }
{
    let sum = checksum(found);
    let len = found.len();
    writeln!(out, "{answer} {sum} {len}")
}
