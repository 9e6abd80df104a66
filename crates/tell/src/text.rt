// The tool's words: a text, and which of its lines say what. A text's lines keep places for numbers (lines.rt).
// specs/Text.antt has the same numbers for definitions. They are numbers and no enum: `answer`, `of_file`, `of_part`, and clerk's `complain`,
// `failed`, `nameless` and `read` take any line, and an enum would ask more of who calls them.
// A step that is done, and what it counts.
pub const APPLIED: usize = 0;

pub const LINKED: usize = 28;

pub const EXAMINED: usize = 29;

// How each step's words begin; an examination's by what it says.
pub const MAP_STEP: usize = 30;

pub const LINK: usize = 31;

pub const YES: usize = 32;

pub const NO: usize = 33;

pub const NO_MAPS: usize = 34;

// A table by its number. Its name is the line so many further on; 9 is the list of pieces.
pub const TABLE: usize = 35;

// The places of a refusal, each by its name.
pub const END: usize = 45;

pub const ROW: usize = 46;

pub const SLOT: usize = 47;

pub const CALL: usize = 48;

pub const FUNCTION: usize = 49;

pub const RECORD: usize = 50;

// And of what an examiner finds.
pub const AFTER: usize = 51;

pub const OVER: usize = 52;

pub const PIECE: usize = 53;

pub const STARTS: usize = 54;

pub const ENDS: usize = 55;

pub const PIECE_SLOT: usize = 56;

pub const NAMES: usize = 57;

pub const PIECE_RECORD: usize = 58;

// A slot of the image: its number and its bytes; the function and slot that it is a copy of; its line record.
pub const BYTES: usize = 59;

pub const COPY: usize = 60;

pub const NO_COPY: usize = 61;

pub const PLACE: usize = 62;

pub const NO_PLACE: usize = 63;

// What goes wrong with a file begins with the file.
pub const TABLES_FILE: usize = 64;

pub const IMAGE_FILE: usize = 65;

pub const PIECES_FILE: usize = 66;

// A file that is read.
pub const NO_NAME: usize = 67;

pub const CANNOT_OPEN: usize = 68;

pub const CANNOT_READ: usize = 69;

pub const CANNOT_END: usize = 70;

pub const NO_LENGTHS: usize = 71;

pub const ENDS_WITHIN: usize = 72;

pub const RUN_ENDS: usize = 73;

pub const TOO_LARGE: usize = 74;

pub const RUN_TOO_LARGE: usize = 75;

pub const NEEDS: usize = 76;

pub const GOES_ON: usize = 77;

pub const TOO_LONG: usize = 78;

// A file that is written.
pub const NO_OUTPUT_NAME: usize = 79;

pub const CANNOT_CREATE: usize = 80;

pub const CANNOT_WRITE: usize = 81;

pub const CANNOT_CLOSE: usize = 82;

// The root.
pub const NO_NUMBER: usize = 83;

// Nothing.
pub const BLANK: usize = 84;

// Lines 1 to 27 say why a step refused or what an examiner found: numbers 1 to 14, then 32 to 44.
pub const TEXT: &str = ": done (0): relocations applied: #^
: refused (1): a table has more rows than its limit
: refused (2): a row breaks its table's rule, or tables 6 to 8 are not as long as table 3 says
: refused (3): a relocation's symbol is not in table 2
: refused (4): a relocation stands off the 8-byte grid
: refused (5): a relocation finds no map
: refused (6): the instruction under a relocation is not a wide load
: refused (7): a value offset does not fit its instruction
: refused (8): a reference to code has an unknown form
: refused (9): a call names no code
: refused (10): there is no function at the target
: refused (11): there is no room for a function in the image that bark holds
: refused (12): a line record stands outside its function
: refused (13): the root is no row of table 3
: refused (14): the info data is broken
: refused (32): there is no room for the list of pieces
: found (33): there is more than an image may have
: found (34): a row is not whole
: found (35): the first piece is not the root at slot 0
: found (36): a piece is of no row of table 3
: found (37): a piece does not start where it should
: found (38): the pieces do not end where the image ends
: found (39): a slot is changed where it may not be
: found (40): a reference is without source register 4
: found (41): a slot points to no start of a piece of the function that it names
: found (42): a function record is missing, or not the piece's
: found (43): a line record is missing, or not the piece's
: found (44): a record is over
: done (0): slots: #, function records: #, line records: #^
 (0): pieces: #^
map step
link of function #
examination of function #: yes
examination of function #: no
examination of function #: no: map step
; table #
 (code sections)
 (symbols)
 (functions)
 (relocations)
 (maps)
 (instructions)
 (function records)
 (line records)
 (pieces)
^
, row #^
; function #, slot #^
; caller: function #, slot #^
; function #^
; function #, line record #^
, after # whole rows^
, record #^
; piece #, function #^
; piece #, which should start at slot # of the image^
; # pieces, which end at slot # of the image^
; piece #, slot #; slot # of the image^
; piece #, slot #; its source names function #^
; piece #, record #; record # of the image^
~ %%
  function #, slot #
  no function^
, file #, line #, column #^
, no line record^
bark: the tables file
bark: the image file
bark: the pieces file
's name cannot be taken^
 cannot be opened^
 cannot be read^
 cannot be closed^
 ends within its lengths^
 ends within table #
 ends within a run
 is too large: table #
 is too large: a run
 needs # bytes, bark holds #^
 goes on after its line records: its lengths do not add up^
 is too long: bark holds # bytes^
's name cannot be taken: it is not written^
 cannot be opened: it is not written^
 cannot be written: it is not whole^
 cannot be closed: it may not be whole^
bark: the root is not a number: it is a row of table 3, in decimal digits^

";
