// Document 01's sizes and limits as code has them, and nowhere else in code. As definitions have them: specs/Rows.antt.
// Bytes of a row.
pub const CODE_SIZE: usize = 4;

pub const SYMBOL_SIZE: usize = 24;

pub const FUNCTION_SIZE: usize = 32;

pub const RELOCATION_SIZE: usize = 24;

pub const MAP_SIZE: usize = 16;

pub const INSTRUCTION_SIZE: usize = 8;

pub const FUNC_INFO_SIZE: usize = 8;

pub const LINE_INFO_SIZE: usize = 16;

// A row of a list of pieces.
pub const PIECE_SIZE: usize = 8;

// Most rows.
pub const MOST_CODE: usize = 64;

pub const MOST_SYMBOLS: usize = 1024;

pub const MOST_FUNCTIONS: usize = 64;

pub const MOST_RELOCATIONS: usize = 1024;

pub const MOST_MAPS: usize = 64;

pub const MOST_INSTRUCTIONS: usize = 8192;

pub const MOST_FUNC_INFO: usize = 256;

pub const MOST_LINE_INFO: usize = 4096;

// What an image holds at most.
pub const MOST_IMAGE_SLOTS: usize = 4096;

pub const MOST_IMAGE_FUNC_INFO: usize = 256;

pub const MOST_IMAGE_LINE_INFO: usize = 4096;

// Most slots of a function.
pub const MOST_FUNCTION_SLOTS: u32 = 4096;

pub const MOST_SECTION: u32 = 65535;

pub const MOST_ADDRESS: u64 = 0xFFFF_FFFF_FFFF;

// No section, or no symbol. A number, as a row's bytes have it and specs/Rows names it: a row reader gives what stands there.
pub const NONE: u32 = 0xFFFF_FFFF;

// A map with data: a number of the row, like NONE.
pub const HAS_DATA: u8 = 1;
