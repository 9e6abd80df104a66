// What stands beside a slot of an image: the function and slot that it is a copy of, and its line record.
ghost use Rattle.std.specs.Prelude.{◌≡◌, ◌*◌, ◌+◌, ◌-◌, ◌≤◌, length};
ghost use Rattle.rules.specs.declared.Table.TheVariants.{LineInfo};
ghost use Rattle.rules.specs.Rows.{row_size};
ghost use Rattle.rules.specs.Pieces.{piece_size};
ghost use Rattle.tell.specs.Listing.{last_at, piece_at, line_at, Stands, source_at, line_of};
ghost use Rattle.tell.specs.Listing.{RowOf};
ghost use Rattle.rules.specs.Bytes.{little, u32_at};
ghost use Rattle.tell.specs.Room.{own_most};

use crate::text::{BLANK, BYTES, COPY, NO_COPY, NO_PLACE, PLACE};
use crate::words::Sentence;
use rules::limits::{LINE_INFO_SIZE, PIECE_SIZE};
use wire::u32_at;

// Where a record has its slot, and a piece its start.
const RECORD_SLOT: usize = 0;

const PIECE_START: usize = 4;

// The last of the records from `from` to `end`, of `size` bytes each, that stands at or before a slot: its own is at `key`. For
// pieces and line records alike, as the definition is.
// A loop and no rev().find(..): the library has lemmas on `find` over a range and over a reversed slice, and none over a reversed range.
#[tactic(auto, unfolding(crate::specs::Listing::last_at))]
pub fn last_at(
    records: &[u8],
    size: usize,
    key: usize,
    from: usize,
    end: usize,
    slot: u32,
) -> Option<usize>
    requires { (key + 4 ≤ size) × (size * end ≤ length records.now) }
    ensures { (result ≡ last_at records.now size key from slot (end - from)) × Stands size key records.now slot result }
{
    for k in (from..end).rev() {
        if u32_at(records, size * k + key) <= slot {
            return Some(k);
        }
    }
    None
}

// The piece that a slot belongs to.
#[tactic(auto, unfolding(crate::specs::Listing::piece_at))]
pub fn piece_at(pieces: &[u8], slot: u32) -> Option<usize>
    ensures { (result ≡ piece_at pieces.now slot) × Stands piece_size 4 pieces.now slot result }
{
    last_at(
        pieces,
        PIECE_SIZE,
        PIECE_START,
        0,
        pieces.len() / PIECE_SIZE,
        slot,
    )
}

// The last line record at or before a slot that belongs to the piece at `start`: the root's own records come first.
#[tactic(auto, unfolding(crate::specs::Listing::line_at))]
pub fn line_at(lines: &[u8], own: usize, start: u32, slot: u32) -> Option<usize>
    ensures { (result ≡ line_at lines.now own start slot) × Stands (row_size LineInfo) 0 lines.now slot result }
{
    let n = lines.len() / LINE_INFO_SIZE;
    if start == 0 {
        last_at(lines, LINE_INFO_SIZE, RECORD_SLOT, 0, own.min(n), slot)
    } else {
        last_at(lines, LINE_INFO_SIZE, RECORD_SLOT, own, n, slot)
    }
}

// What a slot of an image is a copy of: the function's row, where its piece starts in the image, and the slot of the function.
#[derive(Clone, Copy)]
pub struct Source {
    pub function: u32,
    pub start: u32,
    pub slot: u32,
}

#[tactic(auto, unfolding(crate::specs::Listing::source_at, rules::specs::Pieces::piece_row, rules::specs::Pieces::piece_start))]
pub fn source_at(pieces: &[u8], slot: u32) -> Option<Source>
    ensures { result ≡ source_at pieces.now slot }
{
    let k = piece_at(pieces, slot)?;
    let function = u32_at(pieces, PIECE_SIZE * k);
    let start = u32_at(pieces, PIECE_SIZE * k + PIECE_START);
    Some(Source {
        function,
        start,
        slot: slot - start,
    })
}

// What a line record says.
#[derive(Clone, Copy)]
pub struct Line {
    pub file: u32,
    pub line: u32,
    pub column: u32,
}

// A record that stands before the piece's start is another piece's.
#[tactic(auto, unfolding(crate::specs::Listing::line_of))]
pub fn line_of(lines: &[u8], own: usize, start: u32, slot: u32) -> Option<Line>
    ensures { result ≡ line_of lines.now own start slot }
{
    let k = line_at(lines, own, start, slot)?;
    if u32_at(lines, LINE_INFO_SIZE * k) < start {
        return None;
    }
    Some(Line {
        file: u32_at(lines, LINE_INFO_SIZE * k + 4),
        line: u32_at(lines, LINE_INFO_SIZE * k + 8),
        column: u32_at(lines, LINE_INFO_SIZE * k + 12),
    })
}

// An image as it is listed. `own` is the number of the root's line records; `pieces` is the list that the link gave.
#[derive(Clone, Copy)]
pub struct Listing<'a> {
    pub own: usize,
    pub pieces: &'a [u8],
    pub image: &'a [u8],
    pub lines: &'a [u8],
}

// A line of the listing: the slot's number and bytes, the function and slot that it is a copy of, and its line record.
// No longer than bark's own: a clause, since any caller's bytes may be lent.
pub fn row(listing: Listing, slot: usize) -> Sentence
    requires { (8 * slot + 8 ≤ length listing.image.now) × (length listing.image.now ≤ own_most) }
    ensures { RowOf listing.entry.own listing.entry.lines.now slot (u32_at little listing.entry.image.now (8 * slot))
        (u32_at little listing.entry.image.now (8 * slot + 4)) (source_at listing.entry.pieces.now slot) result.lines result.numbers }
{
    let low = u32_at(listing.image, 8 * slot);
    let high = u32_at(listing.image, 8 * slot + 4);
    let at = slot as u32;
    let Some(source) = source_at(listing.pieces, at) else {
        return Sentence {
            lines: [BYTES, NO_COPY, BLANK, BLANK, BLANK],
            numbers: [at, low, high, 0, 0, 0, 0, 0, 0, 0, 0, 0, 0, 0, 0],
        };
    };
    let function = source.function;
    let from = source.slot;
    match line_of(listing.lines, listing.own, source.start, at) {
        Some(place) => Sentence {
            lines: [BYTES, COPY, PLACE, BLANK, BLANK],
            numbers: [
                at,
                low,
                high,
                function,
                from,
                0,
                place.file,
                place.line,
                place.column,
                0,
                0,
                0,
                0,
                0,
                0,
            ],
        },
        None => Sentence {
            lines: [BYTES, COPY, NO_PLACE, BLANK, BLANK],
            numbers: [at, low, high, function, from, 0, 0, 0, 0, 0, 0, 0, 0, 0, 0],
        },
    }
}
