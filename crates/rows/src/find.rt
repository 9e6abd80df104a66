// The first row of a checked table that has the numbers asked for. A search is `position` over the rows as arrays, by the test of one row, which
// stands at 0 in its own bytes: `find` over row numbers costs more for each row. That the table was checked (`Sound`) is asked of the bytes, since docs/CLAIMS.md names these functions and their callers hold bytes.
// Section and address stay two parameters: docs/CLAIMS.md names the searches by them, and an address is an i64 that may lie outside where an
// offset is a ByteOffset. That row k is there is asked by the tests, as by the readers (fields.rt).
ghost use Rattle.std.specs.Prelude.{◌≡◌, ◌+◌, ◌*◌, ◌≤◌, length};
ghost use Rattle.rules.specs.declared.Table.TheVariants.{Code, Symbols, Functions, Relocations, Maps};
ghost use Rattle.rules.specs.Rows.{row_size, whole_rows};
ghost use Rattle.rules.specs.Lookups.{Sound, found_of};
ghost use Rattle.rules.specs.Lookups.{is_code_section, symbol_with, function_with, relocation_with, relocations_before, map_with_symbol, map_of_section};
ghost use Rattle.rows.specs.Matches.{function_matches, relocation_matches, relocation_is_before};
ghost use Rattle.rows.specs.Matches.{map_symbol_matches, map_section_matches};

use crate::fields::{
    code_section, function_address, function_section, map_section, map_symbol, relocation_offset,
    relocation_section, symbol_index,
};
use crate::order::{is_before, same_place};
use rules::ByteOffset;
use rules::limits::{CODE_SIZE, FUNCTION_SIZE, MAP_SIZE, NONE, RELOCATION_SIZE, SYMBOL_SIZE};

fn is_function(t: &[u8], k: usize, home: u32, address: i64) -> bool
    requires { row_size Functions * k + row_size Functions ≤ length t.now }
    ensures { result ≡ function_matches t.now home address k }
{
    let section = function_section(t, k);
    if address < 0 {
        return false;
    }
    let target = ByteOffset(address as u64);
    same_place(section, function_address(t, k), home, target)
}

// This and the next hold a row against a place, by equality and by order (order.rt): a closure for the one call that differs would be no plainer.
pub fn is_relocation(t: &[u8], k: usize, home: u32, offset: ByteOffset) -> bool
    requires { row_size Relocations * k + row_size Relocations ≤ length t.now }
    ensures { result ≡ relocation_matches t.now home offset.0 k }
{
    same_place(
        relocation_section(t, k),
        relocation_offset(t, k),
        home,
        offset,
    )
}

pub fn is_relocation_before(t: &[u8], k: usize, home: u32, offset: ByteOffset) -> bool
    requires { row_size Relocations * k + row_size Relocations ≤ length t.now }
    ensures { result ≡ relocation_is_before t.now home offset.0 k }
{
    is_before(
        relocation_section(t, k),
        relocation_offset(t, k),
        home,
        offset,
    )
}

fn is_map_with(t: &[u8], k: usize, symbol: u32) -> bool
    requires { row_size Maps * k + row_size Maps ≤ length t.now }
    ensures { result ≡ map_symbol_matches t.now symbol k }
{
    let own = map_symbol(t, k);
    (own != NONE) & (own == symbol)
}

fn is_map_of(t: &[u8], k: usize, home: u32) -> bool
    requires { row_size Maps * k + row_size Maps ≤ length t.now }
    ensures { result ≡ map_section_matches t.now home k }
{
    let own = map_symbol(t, k);
    (map_section(t, k) == home) & (own == NONE)
}

pub fn is_code(t: &[u8], home: u32) -> bool
    requires { Sound Code t.now }
    ensures { result ≡ is_code_section t.now home }
{
    let (rows, _) = t.as_chunks::<CODE_SIZE>();
    rows.iter().any(|row| code_section(row, 0) == home)
}

// A `for`, and no `position`: the map step over many symbols takes a quarter less (docs/LOOK-BACK.md).
pub fn find_symbol(t: &[u8], index: u32) -> Option<usize>
    requires { Sound Symbols t.now }
    ensures { result ≡ found_of (symbol_with t.now index) }
{
    for k in 0..t.len() / SYMBOL_SIZE {
        if symbol_index(t, k) == index {
            return Some(k);
        }
    }
    None
}

pub fn find_function(t: &[u8], home: u32, address: i64) -> Option<usize>
    requires { Sound Functions t.now }
    ensures { result ≡ found_of (function_with t.now home address) }
{
    let (rows, _) = t.as_chunks::<FUNCTION_SIZE>();
    rows.iter()
        .position(|row| is_function(row, 0, home, address))
}

pub fn find_relocation(t: &[u8], home: u32, offset: ByteOffset) -> Option<usize>
    requires { Sound Relocations t.now }
    ensures { result ≡ found_of (relocation_with t.now home offset.0) }
{
    let (rows, _) = t.as_chunks::<RELOCATION_SIZE>();
    rows.iter()
        .position(|row| is_relocation(row, 0, home, offset))
}

// How many relocations stand before (home, offset).
pub fn relocations_before(t: &[u8], home: u32, offset: ByteOffset) -> usize
    requires { Sound Relocations t.now }
    ensures { (result ≡ relocations_before t.now home offset.0) × (result ≤ whole_rows Relocations t.now) }
{
    let (rows, _) = t.as_chunks::<RELOCATION_SIZE>();
    rows.partition_point(
        |row: &[u8; RELOCATION_SIZE]| -> bool
            ensures { result ≡ relocation_is_before row.now home offset.0 0 }
        { is_relocation_before(row, 0, home, offset) },
    )
}

pub fn find_map_symbol(t: &[u8], symbol: u32) -> Option<usize>
    requires { Sound Maps t.now }
    ensures { result ≡ found_of (map_with_symbol t.now symbol) }
{
    let (rows, _) = t.as_chunks::<MAP_SIZE>();
    rows.iter().position(|row| is_map_with(row, 0, symbol))
}

pub fn find_map_section(t: &[u8], home: u32) -> Option<usize>
    requires { Sound Maps t.now }
    ensures { result ≡ found_of (map_of_section t.now home) }
{
    let (rows, _) = t.as_chunks::<MAP_SIZE>();
    rows.iter().position(|row| is_map_of(row, 0, home))
}
