// The two files: the tables file as it is held, and the lengths at the start of an image file. A held tables file is its eight
// lengths and its tables in one run of bytes, but for table 6: the map step writes to it, so it has a buffer of its own.
// That the file holds its lengths is a clause: replay and the tool lend bytes of their own buffers.
ghost use Rattle.std.specs.Prelude.{◌≡◌, [], ◌∷◌, ◌+◌, ◌*◌, ◌<◌, ◌≤◌, length};
ghost use Rattle.rules.specs.Bytes.{little, u32_at};
ghost use Rattle.rules.specs.Answers.{places_in};
ghost use Rattle.tell.specs.Files.{place_of, length_in, held_in, start_of, table_in};
ghost use Rattle.tell.specs.Room.{own_most};

use crate::room::{IMAGE_LENGTHS, TABLE_LENGTHS};
use rules::{Names, Program, Table};

// The tables of a file, in its order.
pub const EACH: [Table; TABLES] = [
    Table::Code,
    Table::Symbols,
    Table::Functions,
    Table::Relocations,
    Table::Maps,
    Table::Instructions,
    Table::FuncInfo,
    Table::LineInfo,
];

pub const TABLES: usize = 8;

// Table 6 by its place.
const INSTRUCTIONS: usize = 5;

// How many tables stand before one: by place stand a file's lengths, and a table begins where those before it end.
pub fn place_of(table: Table) -> usize
    ensures { (result ≡ place_of table) × (result < 8) }
{
    table.number() as usize - 1
}

fn length_at(file: &[u8], i: usize) -> u32
    requires { (i < 8) × (32 ≤ length file.now) }
    ensures { result ≡ length_in file.now i }
{
    wire::u32_at(file, 4 * i)
}

// The bytes of a table.
pub fn length_of(file: &[u8], table: Table) -> u32
    requires { 32 ≤ length file.now }
    ensures { result ≡ length_in file.now (place_of table) }
{
    length_at(file, place_of(table))
}

// Those of table i + 1 that stand among the others.
fn held(file: &[u8], i: usize) -> u32
    requires { (i < 8) × (32 ≤ length file.now) }
    ensures { result ≡ held_in file.now i }
{
    if i == INSTRUCTIONS {
        0
    } else {
        length_at(file, i)
    }
}

// Where table i + 1 begins. By its place, since the end of the last is asked for too.
// A sum of its own: the addend leaves table 6 out, and its bound is of lengths (as merge's and source's are of rows).
#[tactic(auto, unfolding(crate::specs::Files::start_of))]
pub fn start_of(file: &[u8], i: usize) -> usize
    requires { (i ≤ 8) × (32 ≤ length file.now) }
    ensures { (result ≡ start_of file.now i) × (result ≤ 32 + 0xFFFF_FFFF * i) }
{
    let mut start = TABLE_LENGTHS;
    for k in 0..i {
        start += held(file, k) as usize;
    }
    start
}

// A table, empty where the file does not hold it whole.
#[tactic(auto, unfolding(crate::specs::Files::table_in, crate::specs::Files::start_of))]
pub fn table(file: &[u8], table: Table) -> &[u8]
    ensures { result.now ≡ table_in file.now (place_of table) }
{
    if file.len() < TABLE_LENGTHS {
        return &[];
    }
    let i = place_of(table);
    let start = start_of(file, i);
    let end = start + held(file, i) as usize;
    if end <= file.len() {
        &file[start..end]
    } else {
        &[]
    }
}

// Tables 1 to 4.
pub fn names(file: &[u8]) -> Names<'_>
    ensures code { result.code.now ≡ table_in file.now 0 }
    ensures symbols { result.symbols.now ≡ table_in file.now 1 }
    ensures functions { result.functions.now ≡ table_in file.now 2 }
    ensures relocations { result.relocations.now ≡ table_in file.now 3 }
{
    Names {
        code: table(file, Table::Code),
        symbols: table(file, Table::Symbols),
        functions: table(file, Table::Functions),
        relocations: table(file, Table::Relocations),
    }
}

// Table 6, which has a buffer of its own, with tables 7 and 8.
pub fn program<'a>(file: &'a [u8], instructions: &'a [u8]) -> Program<'a>
    ensures instructions { result.instructions.now ≡ instructions.now }
    ensures func_info { result.func_info.now ≡ table_in file.now 6 }
    ensures line_info { result.line_info.now ≡ table_in file.now 7 }
{
    Program {
        instructions,
        func_info: table(file, Table::FuncInfo),
        line_info: table(file, Table::LineInfo),
    }
}

// The lengths of an image's three runs, in their order.
// No longer than bark's own: a clause, since any caller's bytes may be lent.
pub fn image_lengths(image: Program) -> [u8; IMAGE_LENGTHS]
    requires { (length image.instructions.now ≤ own_most) × ((length image.func_info.now ≤ own_most) × (length image.line_info.now ≤ own_most)) }
    ensures { (length result ≡ 12) × (result ≡ places_in 12
        (length image.entry.instructions.now ∷ length image.entry.func_info.now ∷ length image.entry.line_info.now ∷ [])) }
{
    let mut out = [0u8; IMAGE_LENGTHS];
    let a = image.instructions.len() as u32;
    let b = image.func_info.len() as u32;
    let c = image.line_info.len() as u32;
    wire::put_places(&mut out, a, b, c);
    out
}
