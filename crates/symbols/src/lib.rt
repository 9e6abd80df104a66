// Table 2 lent as a slice of rows: searched by index with the byte table's answers, and laid out as that byte table.
#![tactic(auto)]

ghost use Rattle.std.specs.Prelude.{◌≡◌, ◌+◌, ◌*◌, ◌≤◌, length};
ghost use Rattle.rules.specs.declared.Table.TheVariants.{Symbols};
ghost use Rattle.rules.specs.Bytes.{splice};
ghost use Rattle.rules.specs.Rows.{row_size};
ghost use Rattle.rules.specs.Lookups.{found_of, symbol_with};
ghost use Rattle.symbols.specs.Symbols.{bytes8, row_bytes, bytes_of, rows_needed, rows_room, laid_in};

use rules::limits::{MOST_SYMBOLS, SYMBOL_SIZE};
use wire::{copy, put_u32};

// A row of table 2. C's layout of it on a little-endian host is the row's bytes, so that the kind is a number.
#[repr(C)]
#[derive(Clone, Copy, PartialEq, Eq)]
pub struct Symbol {
    pub index: u32,
    pub section: u32,
    pub address: u64,
    pub kind: u8,
    pub padding: [u8; PADDING],
}

const PADDING: usize = 7;

// Here and not beside wire's stores: nothing else writes a u64.
// Buffer and place side by side, as wire's stores have them.
fn put_u64(out: &mut [u8], at: usize, v: u64)
    requires { at + 8 ≤ length out.old }
    ensures { out.new ≡ splice out.old at (bytes8 v) }
{
    out[at..at + 8].copy_from_slice(&v.to_le_bytes());
}

// Row k of the byte table. Field by field: a row made first and then copied in is no plainer.
// Room for row k is a clause, as the readers of rows have it.
pub fn put_row(out: &mut [u8], k: usize, s: Symbol)
    requires { row_size Symbols * k + row_size Symbols ≤ length out.old }
    ensures { out.new ≡ splice out.old (row_size Symbols * k) (row_bytes s) }
{
    let at = SYMBOL_SIZE * k;
    put_u32(out, at, s.index);
    put_u32(out, at + 4, s.section);
    put_u64(out, at + 8, s.address);
    out[at + 16] = s.kind;
    copy(out, at + 17, &s.padding, 0, PADDING);
}

// Room for as many rows as a link has to see: one over table 2's limit is refused, whatever follows.
pub const ROWS_ROOM: usize = SYMBOL_SIZE * (MOST_SYMBOLS + 1);

// The first row with the index: what the byte table of the same rows answers.
pub fn find_rows(rows: &[Symbol], index: u32) -> Option<usize>
    ensures { result ≡ found_of (symbol_with (bytes_of rows.now) index) }
{
    rows.iter().position(|row| row.index == index)
}

// The rows that a link has to see as the byte table, from the start of `out` on, and how many they are.
// A count and no slice, as docs/CLAIMS.md has it: its promise is over all of out.
pub fn lay_rows(rows: &[Symbol], out: &mut [u8]) -> usize
    requires { rows_room ≤ length out.old }
    ensures { (result ≡ rows_needed (length rows.now)) × (out.new ≡ laid_in rows.now out.old) }
{
    let n = rows.len().min(MOST_SYMBOLS + 1);
    for (i, row) in rows[..n].iter().enumerate() {
        put_row(out, i, *row);
    }
    n
}
