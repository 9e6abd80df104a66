// bark's own buffers, in bytes. They are counted here, and nowhere else.
ghost use Rattle.std.specs.Prelude.{◌≡◌, ◌≤◌};
ghost use Rattle.tell.specs.Room.{own_most};

// Tables 1 to 8. Tables 1, 3, 5 and 7 have room for all the rows that document 01 allows.
pub const CODE: usize = 256;

pub const SYMBOLS: usize = 6144;

pub const FUNCTIONS: usize = 2048;

pub const RELOCATIONS: usize = 6144;

pub const MAPS: usize = 1024;

pub const INSTRUCTIONS: usize = 12288;

pub const FUNC_INFO: usize = 2048;

pub const LINE_INFO: usize = 8192;

// The image.
pub const IMAGE: usize = 12288;

pub const IMAGE_FUNC_INFO: usize = 2048;

pub const IMAGE_LINE_INFO: usize = 8192;

// The list of its pieces: each function of table 3 once, and the root's copy.
pub const PIECES: usize = 520;

// What is shown to be examined, where it is not as much: one function record more than an image may have, so that it is found; 500 pieces.
pub const SHOWN_FUNC_INFO: usize = 2056;

pub const SHOWN_PIECES: usize = 4000;

// The two files' lengths, a path, a word of the command or the root's digits, a line of words.
pub const TABLE_LENGTHS: usize = 32;

pub const IMAGE_LENGTHS: usize = 12;

pub const PATH: usize = 512;

pub const WORD: usize = 16;

pub const LINE: usize = 192;

// A tables file as it is held: the lengths and all tables but the sixth.
pub const FILE: usize = TABLE_LENGTHS
    + CODE
    + SYMBOLS
    + FUNCTIONS
    + RELOCATIONS
    + MAPS
    + FUNC_INFO
    + LINE_INFO;

// What a tables file may need of each, by the tables' places, as a file has its lengths.
pub const ROOM: [u32; 8] = [
    CODE as u32,
    SYMBOLS as u32,
    FUNCTIONS as u32,
    RELOCATIONS as u32,
    MAPS as u32,
    INSTRUCTIONS as u32,
    FUNC_INFO as u32,
    LINE_INFO as u32,
];

// What both subcommands hold: the tables' lengths as they were read and with the tables, one path at a time, and a line, which is counted
// once: DECISIONS.md says what its copies come to.
pub const BOTH: usize = FILE + TABLE_LENGTHS + INSTRUCTIONS + PATH + WORD + LINE;

// What link holds. The image's lengths are there as they are made and as they are written.
// One for each subcommand, as docs/CLAIMS.md names them: they add up other buffers, so there is no one sum.
pub fn link_bytes() -> usize
    ensures { (result ≡ 62000) × (result ≤ own_most) }
{
    BOTH + IMAGE + IMAGE_FUNC_INFO + IMAGE_LINE_INFO + PIECES + IMAGE_LENGTHS + IMAGE_LENGTHS
}

// What examine holds.
pub fn examine_bytes() -> usize
    ensures { (result ≡ 65476) × (result ≤ own_most) }
{
    BOTH + IMAGE + SHOWN_FUNC_INFO + IMAGE_LINE_INFO + SHOWN_PIECES + IMAGE_LENGTHS
}
