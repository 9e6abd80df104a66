// The plain types that definitions and code share. Nothing here decides anything.
#![tactic(auto)]

ghost use Rattle.std.specs.Prelude.{◌≡◌, ◌≤◌};
ghost use Rattle.rules.specs.Rows.{row_size, most_rows, table_number, kind_of, kind_in};

use crate::limits::{
    CODE_SIZE, FUNC_INFO_SIZE, FUNCTION_SIZE, INSTRUCTION_SIZE, LINE_INFO_SIZE, MAP_SIZE,
    MOST_CODE, MOST_FUNC_INFO, MOST_FUNCTIONS, MOST_INSTRUCTIONS, MOST_LINE_INFO, MOST_MAPS,
    MOST_RELOCATIONS, MOST_SYMBOLS, RELOCATION_SIZE, SYMBOL_SIZE,
};

pub mod limits; // limits.rt: sizes and limits

// Document 01's eight tables, by its numbers.
#[derive(Clone, Copy, PartialEq, Eq)]
pub enum Table {
    Code = 1,
    Symbols = 2,
    Functions = 3,
    Relocations = 4,
    Maps = 5,
    Instructions = 6,
    FuncInfo = 7,
    LineInfo = 8,
}

impl Table {
    // Bytes of a row.
    pub fn row_size(self) -> usize
        ensures { (result ≡ row_size self) × ((4 ≤ result) × (result ≤ 32)) }
    {
        match self {
            Table::Code => CODE_SIZE,
            Table::Symbols => SYMBOL_SIZE,
            Table::Functions => FUNCTION_SIZE,
            Table::Relocations => RELOCATION_SIZE,
            Table::Maps => MAP_SIZE,
            Table::Instructions => INSTRUCTION_SIZE,
            Table::FuncInfo => FUNC_INFO_SIZE,
            Table::LineInfo => LINE_INFO_SIZE,
        }
    }

    pub fn most_rows(self) -> usize
        ensures { result ≡ most_rows self }
    {
        match self {
            Table::Code => MOST_CODE,
            Table::Symbols => MOST_SYMBOLS,
            Table::Functions => MOST_FUNCTIONS,
            Table::Relocations => MOST_RELOCATIONS,
            Table::Maps => MOST_MAPS,
            Table::Instructions => MOST_INSTRUCTIONS,
            Table::FuncInfo => MOST_FUNC_INFO,
            Table::LineInfo => MOST_LINE_INFO,
        }
    }

    // Document 01's, from 1 on.
    pub fn number(self) -> u32
        ensures { result ≡ table_number self }
    {
        self as u32
    }
}

// Tables 1 to 4 as they are lent: what a slot can name. Apart from Program, from maps and from table 6: the map step writes to table 6 while
// it reads these, and a link sees no maps.
#[derive(Clone, Copy)]
pub struct Names<'a> {
    pub code: &'a [u8],
    pub symbols: &'a [u8],
    pub functions: &'a [u8],
    pub relocations: &'a [u8],
}

// Slots with their records: tables 6 to 8, or an image that is shown.
#[derive(Clone, Copy)]
pub struct Program<'a> {
    pub instructions: &'a [u8],
    pub func_info: &'a [u8],
    pub line_info: &'a [u8],
}

// The same as a link's three outputs. Two types, since none is generic over how its slices are lent.
#[derive(Drop)]
pub struct Image<'a> {
    pub slots: &'a mut [u8],
    pub func_info: &'a mut [u8],
    pub line_info: &'a mut [u8],
}

// What table 2 says of a symbol, by its number.
#[derive(Clone, Copy, PartialEq, Eq)]
pub enum SymbolKind {
    Other = 0,
    Text = 1,
    Section = 2,
}

// A checked table has no number above 2.
impl From<u8> for SymbolKind {
    ghost from_gives = { λ n kind. kind_in kind ≡ kind_of n };

    fn from(n: u8) -> SymbolKind {
        match n {
            0 => SymbolKind::Other,
            1 => SymbolKind::Text,
            _ => SymbolKind::Section,
        }
    }
}

// A count of slots: eight bytes each.
#[derive(Clone, Copy, PartialEq, Eq, PartialOrd, Ord)]
pub struct Slot(pub u32);

// A count of bytes from a section's start.
#[derive(Clone, Copy, PartialEq, Eq, PartialOrd, Ord)]
pub struct ByteOffset(pub u64);

// A place of the source walk: a slot of a row, which may lie outside.
#[derive(Clone, Copy, PartialEq, Eq)]
pub struct Place {
    pub row: usize,
    pub slot: i64,
}

// What an opcode does to the walk.
#[derive(Clone, Copy)]
pub enum Kind {
    Plain,
    WideLoad,
    JumpByOffset,
    JumpByImmediate,
    Conditional,
    CallByte,
    Exit,
    Unknown,
}

// The place numbers of an answer.
#[derive(Clone, Copy)]
pub struct Places(pub u32, pub u32, pub u32);

// Why an entry refuses, by the number that it answers, with the places that it names; those not named are 0. Document 01's are 1 to 14, ours
// from 32 on; names are the crate's where it has the error.
#[derive(Clone, Copy)]
pub enum Cause {
    // table
    TooManyRows = 1,
    // table, row
    BrokenRow = 2,
    // function, slot: of this and the next six
    UnknownSymbol = 3,
    InvalidRelocationOffset = 4,
    SectionNotFound = 5,
    NotWideLoad = 6,
    ValueOutside = 7,
    UnknownForm = 8,
    NoCode = 9,
    // caller, slot
    UnknownFunction = 10,
    // function being added; a reader says 0
    NoRoom = 11,
    // function, record
    LineOutside = 12,
    // none: of this and the next
    NoRoot = 13,
    BrokenInfo = 14,
    // the caller's mistake: the list of pieces has no room. None
    NoListRoom = 32,
    // What an examiner finds, of this and all that follow: in the image (6), its function records (7), its line records (8) or the list (9)
    ShownTooLong = 33,
    // in the same, after so many whole rows
    ShownPartial = 34,
    // none
    RootNotFirst = 35,
    // piece, function
    NoSuchFunction = 36,
    // piece, slot of the image where it should start
    NotTiled = 37,
    // pieces, slot of the image where they end
    EndsElsewhere = 38,
    // piece, slot, slot of the image
    SlotChanged = 39,
    // piece, slot, function that its source names: of this and the next
    NotReference = 40,
    WrongTarget = 41,
    // piece, record, record of the image: of this and the next
    FuncInfoDiffers = 42,
    LineInfoDiffers = 43,
    // 7 or 8, first record that is over
    RecordsOver = 44,
}

#[derive(Clone, Copy)]
pub struct Refusal {
    pub cause: Cause,
    pub places: Places,
}
