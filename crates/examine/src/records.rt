// The records of a piece, each against its source record (42, 43, and the link's own 12), and those that are over (44).
ghost use Rattle.std.specs.Prelude.{◌≡◌, Bool, ℕ, [], ◌+◌, ◌*◌, ◌≤◌, ◌<◌, length};
ghost use Rattle.rules.specs.declared.Table.TheVariants.{FuncInfo, LineInfo};
ghost use Rattle.rules.specs.Bytes.{little};
ghost use Rattle.rules.specs.Answers.{number_of, refusal_in};
ghost use Rattle.rules.specs.Rows.{row_size, link_offer, tables_of, func_info_row, line_info_row};
ghost use Rattle.merge.specs.Merge.{stray_in};
ghost use Rattle.rules.specs.Examine.{first_wrong, shown, claim_of, over_wrong};
ghost use Rattle.examine.specs.Recorded.{func_read, line_read, func_of, line_of, record_wrong, Decides, func_wrong, line_wrong, stray_of, records_wrong, over, Movable, Funcs, Lines, Strays, Recorded};

use crate::piece::Piece;
use answers::{finding, refusal};
use merge::stray_line;
use rows::fields::{
    func_info_slot, func_info_type, function_func_info, function_line_info, line_info_column,
    line_info_file, line_info_line, line_info_slot,
};
use rules::limits::{FUNC_INFO_SIZE, LINE_INFO_SIZE};
use rules::{Cause, Program, Refusal, Slot, Table};

// A record of table 7.
#[derive(Clone, Copy, PartialEq, Eq)]
struct FuncRecord {
    slot: u32,
    kind: u32,
}

impl FuncRecord {
    fn read(t: &[u8], i: usize) -> FuncRecord
        requires { row_size FuncInfo * i + row_size FuncInfo ≤ length t.now }
        ensures { func_read result ≡ func_info_row little t.now i }
    {
        FuncRecord {
            slot: func_info_slot(t, i),
            kind: func_info_type(t, i),
        }
    }

    // As piece k should have it.
    fn placed(self, k: u32, start: Slot) -> FuncRecord
        ensures { func_read result ≡ func_of k start.0 (func_read self) }
    {
        if k == 0 { // the root's rule
            return self;
        }
        FuncRecord {
            slot: start.0,
            ..self
        }
    }
}

// A record of table 8.
// A type of its own: it has two fields more and moves by its first line's slot. What it shares with FuncRecord is check_run.
#[derive(Clone, Copy, PartialEq, Eq)]
struct LineRecord {
    slot: u32,
    file: u32,
    line: u32,
    column: u32,
}

impl LineRecord {
    fn read(t: &[u8], i: usize) -> LineRecord
        requires { row_size LineInfo * i + row_size LineInfo ≤ length t.now }
        ensures { line_read result ≡ line_info_row little t.now i }
    {
        LineRecord {
            slot: line_info_slot(t, i),
            file: line_info_file(t, i),
            line: line_info_line(t, i),
            column: line_info_column(t, i),
        }
    }

    // As piece k should have it, whose first line record has the slot `origin` in table 8.
    fn placed(self, k: u32, origin: u32, start: Slot) -> LineRecord
        requires { Movable k origin start.0 (line_read self) }
        ensures { line_read result ≡ line_of k origin start.0 (line_read self) }
    {
        if k == 0 {
            return self;
        }
        LineRecord {
            slot: start.0 + (self.slot - origin),
            ..self
        }
    }
}

// Records of piece k, `count` of them, which should stand from `at` on among n of the image: the first that does not. `same` says whether
// record j of the piece is that record of the image. The numbers of records are usize: to the compiler a sum of two u32 may wrap, and then each
// record's place is computed anew.
fn check_run<F: Fn(usize, usize) -> bool>(
    cause: Cause,
    k: u32,
    n: usize,
    at: u32,
    count: u32,
    same: F,
) -> Result<(), Refusal>
    requires low { at + count < 0x1_0000_0000 }
    requires asks { (j : ℕ) → j < count → at + j < n → F.pre same j (at + j) }
    ensures { (test : ℕ → Bool) → Decides (λ j to b. F.post same j to b) count n at test
        → refusal_in result ≡ first_wrong (record_wrong (number_of cause) k n at test) 0 count }
{
    for j in 0..count {
        let to = at as usize + j as usize;
        if to >= n || !same(j as usize, to) {
            return Err(finding(cause, k, j, to as u32));
        }
    }
    Ok(())
}

// A piece's function records, `count` of table 7.
fn check_funcs(func_info: &[u8], shown: &[u8], piece: Piece, count: u32) -> Result<(), Refusal>
    requires { Funcs func_info.now piece.part.funcs count piece.funcs }
    ensures { refusal_in result
        ≡ first_wrong (func_wrong func_info.now piece.part.funcs shown.now piece.funcs piece.k piece.start.0) 0 count }
{
    let Piece {
        k,
        start,
        part,
        funcs,
        ..
    } = piece;
    let n = shown.len() / FUNC_INFO_SIZE;
    check_run(Cause::FuncInfoDiffers, k, n, funcs, count, |j, to| {
        let own = FuncRecord::read(func_info, part.funcs as usize + j);
        FuncRecord::read(shown, to) == own.placed(k, start)
    })
}

// Line records of a piece, at least one: these move by the first one's slot.
// Not inlined, since the loop would have its numbers in memory in what it is inlined into.
#[inline(never)]
fn check_some_lines(line_info: &[u8], shown: &[u8], piece: Piece, count: u32) -> Result<(), Refusal>
    requires lines { Lines line_info.now piece.part.lines count piece.lines piece.k piece.start.0 }
    requires some { 0 < count }
    ensures { refusal_in result
        ≡ first_wrong (line_wrong line_info.now piece.part.lines shown.now piece.lines piece.k piece.start.0) 0 count }
{
    let Piece {
        k,
        start,
        part,
        lines,
        ..
    } = piece;
    let origin = line_info_slot(line_info, part.lines as usize);
    let n = shown.len() / LINE_INFO_SIZE;
    check_run(Cause::LineInfoDiffers, k, n, lines, count, |j, to| {
        let own = LineRecord::read(line_info, part.lines as usize + j);
        LineRecord::read(shown, to) == own.placed(k, origin, start)
    })
}

// Its line records, `count` of table 8: a piece without any pays for no call.
fn check_lines(line_info: &[u8], shown: &[u8], piece: Piece, count: u32) -> Result<(), Refusal>
    requires { Lines line_info.now piece.part.lines count piece.lines piece.k piece.start.0 }
    ensures { refusal_in result
        ≡ first_wrong (line_wrong line_info.now piece.part.lines shown.now piece.lines piece.k piece.start.0) 0 count }
{
    if count == 0 {
        return Ok(());
    }
    check_some_lines(line_info, shown, piece, count)
}

// The link's own 12, for every piece but the first.
fn check_stray(functions: &[u8], line_info: &[u8], piece: Piece) -> Result<(), Refusal>
    requires { Strays functions.now line_info.now piece.row piece.part.lines }
    ensures { refusal_in result ≡ stray_of piece.k piece.row (stray_in functions.now line_info.now piece.row) }
{
    if piece.k == 0 {
        return Ok(());
    }
    match stray_line(functions, line_info, piece.row, piece.part.lines) {
        Some(j) => Err(refusal(Cause::LineOutside, piece.row as u32, j as u32)),
        None => Ok(()),
    }
}

// The records of a piece.
#[tactic(auto, unfolding(crate::specs::Recorded::records_wrong))]
pub fn check_records(
    functions: &[u8],
    program: Program,
    image: Program,
    piece: Piece,
) -> Result<(), Refusal>
    requires { Recorded functions.now program.func_info.now program.line_info.now piece.row piece.start.0 piece.part piece.funcs piece.lines }
    ensures { refusal_in result
        ≡ records_wrong functions.now program.entry.func_info.now program.entry.line_info.now image.entry.func_info.now image.entry.line_info.now
        piece.k piece.row piece.start.0 piece.part piece.funcs piece.lines }
{
    let funcs = function_func_info(functions, piece.row);
    check_funcs(program.func_info, image.func_info, piece, funcs)?;
    check_stray(functions, program.line_info, piece)?;
    let lines = function_line_info(functions, piece.row);
    check_lines(program.line_info, image.line_info, piece, lines)
}

fn check_most(table: Table, t: &[u8], most: u32) -> Result<(), Refusal>
    ensures { refusal_in result ≡ over table t.now most }
{
    if t.len() / table.row_size() > most as usize {
        return Err(refusal(Cause::RecordsOver, table.number(), most));
    }
    Ok(())
}

// So many records belong to the pieces.
// Two sums that grow from piece to piece, beside what is shown.
#[tactic(auto, using(crate::proofs::Same::over_parts))]
pub fn check_over(image: Program, funcs: u32, lines: u32) -> Result<(), Refusal>
    ensures { refusal_in result ≡ over_wrong
        (tables_of little (link_offer [] [] [] [] [] [] []))
        (claim_of little (shown [] image.entry.func_info.now image.entry.line_info.now []))
        funcs
        lines }
{
    check_most(Table::FuncInfo, image.func_info, funcs)?;
    check_most(Table::LineInfo, image.line_info, lines)
}
