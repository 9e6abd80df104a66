// The entries that C calls (barkruffle_c exports them): each hands over to the crate that decides, and tells its answer as document 01's numbers.
#![tactic(auto)]

ghost use Rattle.std.specs.Prelude.{◌≡◌, eqb, length};
ghost use Rattle.rules.specs.Bytes.{little};
ghost use Rattle.rules.specs.Answers.{reply_of};
ghost use Rattle.rules.specs.Lookups.{symbol_with};
ghost use Rattle.rules.specs.Lent.{lent, lent_maps, lent_shown, lent_image, lent_by};
ghost use Rattle.rules.specs.Entries.{link_entry, link_pieces_entry, map_entry};
ghost use Rattle.rules.specs.Examine.{examine_entry};
ghost use Rattle.rules.specs.Readers.{read_records, record_reply};
ghost use Rattle.answers.specs.Told.{Told};
ghost use Rattle.info.specs.Promises.{table_in, info_in};
ghost use Rattle.merge.specs.Merge.{SameOutputs};
ghost use Rattle.symbols.specs.Symbols.{bytes_of};
ghost use Rattle.barkruffle.specs.Promises.{LinkTold, ListTold, MapTold, ReadTold, Placed, Stands};
ghost use Rattle.barkruffle.specs.LentRows.{lent_with, number_found, RowTold};

use answers::{number, tell};
use examine::examine;
use info::Records;
use linker::{link, link_pieces};
use maps::relocate_maps;
use rules::limits::SYMBOL_SIZE;
use rules::{Image, Names, Places, Program, Refusal};
use symbols::{ROWS_ROOM, Symbol, find_rows, lay_rows};

// Rewrites table 6 in place, only once nothing is refused.
pub fn barkruffle_relocate_maps(
    names: Names,
    maps: &[u8],
    instructions: &mut [u8],
    places: &mut [u8],
) -> u32
    ensures { MapTold
        places.old
        places.new
        instructions.new
        result
        (map_entry little (lent_maps names.entry maps.now instructions.old)) }
{
    tell(relocate_maps(names, maps, instructions), places)
}

// Links the function at the row root of table 3.
pub fn barkruffle_link(
    names: Names,
    program: Program,
    root: u32,
    image: &mut Image,
    places: &mut [u8],
) -> u32
    ensures told { LinkTold
        places.old
        places.new
        (lent_image image.new)
        result
        (link_entry little (lent names.entry program.entry) root (lent_by (lent_image image.old))) }
    ensures same { SameOutputs image.old image.new }
{
    tell(link(names, program, image, root), places)
}

// The link with its list of pieces, in order of placing: rows of a function's row and its start.
pub fn barkruffle_link_pieces(
    names: Names,
    program: Program,
    root: u32,
    image: &mut Image,
    pieces: &mut [u8],
    places: &mut [u8],
) -> u32
    ensures told { ListTold
        places.old
        places.new
        (lent_image image.new)
        pieces.new
        result
        (link_pieces_entry
        little
        (lent names.entry program.entry)
        root
        (lent_by (lent_image image.old))
        (length pieces.old)) }
    ensures same { SameOutputs image.old image.new }
{
    let listed = link_pieces(names, program, image, pieces, root);
    tell(listed.map(|listed| listed.places), places)
}

// Examines an image from elsewhere, with its records and its list of pieces.
pub fn barkruffle_examine(
    names: Names,
    program: Program,
    root: u32,
    shown: Program,
    pieces: &[u8],
    places: &mut [u8],
) -> u32
    ensures { Told
        places.old
        places.new
        result
        (examine_entry little (lent names.entry program.entry) root (lent_shown shown.entry pieces.now)) }
{
    tell(examine(names, program, root, shown, pieces), places)
}

// The link with table 2 lent as rows. They are laid into a table of its own, and linked from there.
// Table 2 comes as rows, so the four are `Names` only once it is laid out.
pub fn barkruffle_link_rows(
    code: &[u8],
    symbols: &[Symbol],
    functions: &[u8],
    relocations: &[u8],
    program: Program,
    root: u32,
    image: &mut Image,
    places: &mut [u8],
) -> u32
    ensures told { LinkTold
        places.old
        places.new
        (lent_image image.new)
        result
        (link_entry
        little
        (lent_with code.now (bytes_of symbols.now) functions.now relocations.now program.entry)
        root
        (lent_by (lent_image image.old))) }
    ensures same { SameOutputs image.old image.new }
{
    let mut table = [0u8; ROWS_ROOM];
    let count = lay_rows(symbols, &mut table);
    let end = SYMBOL_SIZE * count;
    let names = Names {
        code,
        symbols: &table[..end],
        functions,
        relocations,
    };
    barkruffle_link(names, program, root, image, places)
}

// No row of lent rows: a slice has fewer. C has no Option.
const NO_ROW: u64 = 0xFFFF_FFFF_FFFF_FFFF;

fn row_number(found: Option<usize>) -> u64
    ensures { result ≡ number_found found }
{
    match found {
        Some(row) => row as u64,
        None => NO_ROW,
    }
}

// The row of lent symbols that has the index, or all ones where none has.
pub fn barkruffle_find_symbol(symbols: &[Symbol], index: u32) -> u64
    ensures { RowTold result (symbol_with (bytes_of symbols.now) index) }
{
    row_number(find_rows(symbols, index))
}

// Reads struct bpf_func_info or bpf_line_info records into rows of table 7 or 8.
pub fn barkruffle_read(records: Records, out: &mut [u8], places: &mut [u8]) -> u32
    ensures { ReadTold
        places.old
        places.new
        out.new
        result
        (read_records little (table_in records.entry) (info_in records.entry) (length out.old)) }
{
    tell(records.read(out), places)
}

// Where a record stands in the caller's data: a slice is no result for C.
#[repr(C)]
#[derive(Clone, Copy, PartialEq, Eq, Default)]
pub struct Part {
    pub at: u64,
    pub len: u64,
}

// By its number, as Placed has it.
fn part_of(a: Result<Places, Refusal>, size: u32, k: u32) -> Part
    ensures { Placed (eqb (reply_of a).number 0) size k result.at result.len }
{
    if number(a) != 0 {
        return Part { at: 0, len: 0 };
    }
    Part {
        at: (size as u64) * (k as u64),
        len: size as u64,
    }
}

// Record k, its tail included; (0, 0) where it is refused.
pub fn barkruffle_record(records: Records, k: u32) -> Part
    ensures { Stands (table_in records.entry) (info_in records.entry) k result.at result.len }
{
    part_of(records.record_number(k), records.size, k)
}

// The number of what `barkruffle_record` gives.
pub fn barkruffle_record_number(records: Records, k: u32, places: &mut [u8]) -> u32
    ensures { Told places.old places.new result (record_reply little (table_in records.entry) (info_in records.entry) k) }
{
    tell(records.record_number(k), places)
}
