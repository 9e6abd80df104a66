// One function added to an image: room, line records that stray, copies of slots and records.
#![tactic(auto)]

ghost use Rattle.std.specs.Prelude.{◌≡◌, map, ◌+◌, ◌*◌, ◌/◌, ◌≤◌, ◌<◌, min, leb, length, take, drop, not};
ghost use Rattle.rules.specs.declared.Table.TheVariants.{Functions, FuncInfo, LineInfo};
ghost use Rattle.rules.specs.Bytes.{little, splice, AreBytes};
ghost use Rattle.rules.specs.Lent.{lent_parts, lent_image};
ghost use Rattle.rules.specs.Rows.{row_size, whole_rows, line_info_row};
ghost use Rattle.rules.specs.Records.{started_at};
ghost use Rattle.rules.specs.Entries.{func_info_bytes, line_info_bytes};
ghost use Rattle.rules.specs.Lookups.{found_of};
ghost use Rattle.merge.specs.Merge.{RowCounts, PartBegins, Sums, Addable, sum, room_bytes, Lined, stays, stray_in, Copyable};
ghost use Rattle.merge.specs.Merge.{funcs_from, lines_from, moved, Near, Extends, Extended, Begins, Begun, SameOutputs};

use rows::fields::{
    func_info_type, function_func_info, function_line_info, function_slots, line_info_column,
    line_info_file, line_info_line, line_info_slot,
};
use rules::limits::{
    FUNC_INFO_SIZE, INSTRUCTION_SIZE, LINE_INFO_SIZE, MOST_IMAGE_FUNC_INFO, MOST_IMAGE_LINE_INFO,
    MOST_IMAGE_SLOTS,
};
use rules::{Image, Program};
use std::ops::Add;
use wire::{copy, put_numbers};

// How much an image holds: slots, function records, line records.
#[derive(Clone, Copy, PartialEq, Eq, Default)]
pub struct Used {
    pub slots: u32,
    pub funcs: u32,
    pub lines: u32,
}

impl Add for Used {
    type Output = Used;

    ghost can_add = { Addable };

    ghost add_gives = { λ a b c. c ≡ sum a b };

    fn add(self, more: Used) -> Used {
        Used {
            slots: self.slots + more.slots,
            funcs: self.funcs + more.funcs,
            lines: self.lines + more.lines,
        }
    }
}

// What a row counts.
// That the row is one of table 3 stays a clause, here and of has_room, which docs/CLAIMS.md names.
fn counts(functions: &[u8], row: usize) -> Used
    requires { row < whole_rows Functions functions.now }
    ensures { RowCounts functions.now row result }
{
    Used {
        slots: function_slots(functions, row).0,
        funcs: function_func_info(functions, row),
        lines: function_line_info(functions, row),
    }
}

// Where a row's part begins in tables 6, 7 and 8: three sums in one pass, where tables::totals adds up one column.
pub fn part_of(functions: &[u8], row: usize) -> Used
    requires { Sums functions.now row }
    ensures { PartBegins functions.now row result }
{
    let mut part = Used::default();
    for k in 0..row {
        part = part + counts(functions, k);
    }
    part
}

// One column of two Useds, with its limits.
fn fits(used: u32, more: u32, bytes: usize, size: usize, most: usize) -> bool
    requires { 0 < size }
    ensures { result ≡ leb (used + more) (min (bytes / size) most) }
{
    let n = used as usize + more as usize;
    n <= most && n <= bytes / size
}

// Whether a row's part fits behind what is used, of outputs of so many bytes.
// Three lengths and no Image: docs/CLAIMS.md names it, and a caller need have no buffers.
#[tactic(auto, unfolding(crate::specs::Merge::room_bytes))]
pub fn has_room(
    functions: &[u8],
    image: usize,
    funcs: usize,
    lines: usize,
    used: Used,
    row: usize,
) -> bool
    requires { row < whole_rows Functions functions.now }
    ensures { result ≡ room_bytes functions.now image funcs lines used row }
{
    let added = counts(functions, row);
    fits(
        used.slots,
        added.slots,
        image,
        INSTRUCTION_SIZE,
        MOST_IMAGE_SLOTS,
    ) && fits(
        used.funcs,
        added.funcs,
        funcs,
        FUNC_INFO_SIZE,
        MOST_IMAGE_FUNC_INFO,
    ) && fits(
        used.lines,
        added.lines,
        lines,
        LINE_INFO_SIZE,
        MOST_IMAGE_LINE_INFO,
    )
}

// Whether a line record lies before the slot `origin`, or `slots` slots after it or more.
// Room for row k is a clause, as the readers of rows have it.
fn is_stray(line_info: &[u8], k: usize, origin: u32, slots: u32) -> bool
    requires { row_size LineInfo * k + row_size LineInfo ≤ length line_info.now }
    ensures { result ≡ not (stays slots origin (line_info_row little line_info.now k)) }
{
    let slot = line_info_slot(line_info, k);
    slot < origin || slot - origin >= slots
}

// The first line record of a function that lies before its first one, or past its slots.
pub fn stray_line(functions: &[u8], line_info: &[u8], row: usize, first: u32) -> Option<usize>
    requires { Lined functions.now line_info.now row first }
    ensures { result ≡ found_of (stray_in functions.now line_info.now row) }
{
    let at = first as usize;
    let count = function_line_info(functions, row) as usize;
    if count == 0 {
        return None;
    }
    let slots = function_slots(functions, row).0;
    let origin = line_info_slot(line_info, at);
    (0..count).find(|k| is_stray(line_info, at + *k, origin, slots))
}

// Rows, where wire's copy counts bytes.
// Buffer and place side by side, as wire's stores have them.
fn copy_rows(size: usize, table: &[u8], first: u32, count: u32, out: &mut [u8], at: u32)
    requires { Copyable size table.now first count out.old at }
    ensures copied { out.new ≡ splice out.old (size * at) (take (size * count) (drop (size * first) table.now)) }
    ensures bytes { AreBytes table.now }
{
    copy(
        out,
        size * at as usize,
        table,
        size * first as usize,
        size * count as usize,
    );
}

// The crate's link_func_and_line_info. Two loops: the new slot of a line record is another, and one generic loop would ask for a trait with
// laws longer than both.
// `part`, `more` and `used` are three places to count from, not one thing: where records stand, how many, and where they go.
fn link_func_info(func_info: &[u8], part: Used, more: Used, out: &mut [u8], used: Used)
    requires { Copyable (row_size FuncInfo) func_info.now part.funcs more.funcs out.old used.funcs }
    ensures { out.new ≡ splice
        out.old
        (row_size FuncInfo * used.funcs)
        (func_info_bytes little (map (started_at used.slots) (funcs_from func_info.now part.funcs more.funcs))) }
{
    let from = part.funcs as usize;
    let to = used.funcs as usize;
    let n = more.funcs as usize;
    let slot = used.slots;
    for k in 0..n {
        let kind = func_info_type(func_info, from + k);
        put_numbers(out, FUNC_INFO_SIZE * (to + k), [slot, kind]);
    }
}

fn link_line_info(line_info: &[u8], part: Used, more: Used, out: &mut [u8], used: Used)
    requires { (Copyable (row_size LineInfo) line_info.now part.lines more.lines out.old used.lines)
        × (Near line_info.now part.lines more.lines used.slots) }
    ensures { out.new ≡ splice
        out.old
        (row_size LineInfo * used.lines)
        (line_info_bytes little (moved used.slots (lines_from line_info.now part.lines more.lines))) }
{
    let from = part.lines as usize;
    let to = used.lines as usize;
    let n = more.lines as usize;
    let start = used.slots;
    if n == 0 {
        return;
    }
    let origin = line_info_slot(line_info, from);
    for k in 0..n {
        let row = from + k;
        let slot = start + (line_info_slot(line_info, row) - origin);
        let file = line_info_file(line_info, row);
        let line = line_info_line(line_info, row);
        let column = line_info_column(line_info, row);
        put_numbers(out, LINE_INFO_SIZE * (to + k), [slot, file, line, column]);
    }
}

// A function after the others: its slots, and its records moved to where it starts. Its part begins there in the tables.
// used, row and part: where it goes, which it is and where it begins (as at link_func_info), here and in begin.
pub fn extend(
    functions: &[u8],
    program: Program,
    image: &mut Image,
    used: Used,
    row: usize,
    part: Used,
) -> Used
    requires { Extends (lent_parts functions.now program) (lent_image image.old) used row part }
    ensures written { Extended (lent_parts functions.now program.entry) (lent_image image.old) (lent_image image.new) used row result }
    ensures same { SameOutputs image.old image.new }
{
    let more = counts(functions, row);
    copy_rows(
        INSTRUCTION_SIZE,
        program.instructions,
        part.slots,
        more.slots,
        image.slots,
        used.slots,
    );
    link_func_info(program.func_info, part, more, image.func_info, used);
    link_line_info(program.line_info, part, more, image.line_info, used);
    used + more
}

// The root: its slots and its records as they stand. Not extend at 0, which would give all function records the start as their slot.
pub fn begin(functions: &[u8], program: Program, image: &mut Image, row: usize, part: Used) -> Used
    requires { Begins (lent_parts functions.now program) (lent_image image.old) row part }
    ensures written { Begun (lent_parts functions.now program.entry) (lent_image image.old) (lent_image image.new) row result }
    ensures same { SameOutputs image.old image.new }
{
    let more = counts(functions, row);
    copy_rows(
        INSTRUCTION_SIZE,
        program.instructions,
        part.slots,
        more.slots,
        image.slots,
        0,
    );
    copy_rows(
        FUNC_INFO_SIZE,
        program.func_info,
        part.funcs,
        more.funcs,
        image.func_info,
        0,
    );
    copy_rows(
        LINE_INFO_SIZE,
        program.line_info,
        part.lines,
        more.lines,
        image.line_info,
        0,
    );
    more
}
