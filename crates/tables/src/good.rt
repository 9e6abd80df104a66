// Whether row k of a table is good. Every test of a row is made, without a branch. Table and row come side by side, as the readers of
// `rows` take them; a bound is one comparison, as the definition has it.
ghost use Rattle.std.specs.Prelude.{◌≡◌, not, ◌||◌, ◌+◌, ◌*◌, ◌-◌, ◌≤◌, ◌<◌, eqb, ltb, length};
ghost use Rattle.rules.specs.declared.Table.TheVariants.{Code, Symbols, Functions, Relocations, Maps};
ghost use Rattle.rules.specs.Rows.{row_size, is_section, is_section_or_none, is_address, same_map, any_from, is_good};

use rows::fields::{
    code_section, function_address, function_offset, function_section, function_slots,
    map_has_data, map_section, map_symbol, relocation_offset, relocation_section,
    relocation_symbol, symbol_address, symbol_index, symbol_kind, symbol_section,
};
use rows::order::is_before;
use rules::limits::{
    HAS_DATA, MAP_SIZE, MOST_ADDRESS, MOST_FUNCTION_SLOTS, MOST_SECTION, NONE, RELOCATION_SIZE,
    SYMBOL_SIZE,
};
use rules::{ByteOffset, SymbolKind, Table};
use wire::all_zero;

fn is_section(s: u32) -> bool
    ensures { result ≡ is_section s }
{
    s <= MOST_SECTION
}

fn is_section_or_none(s: u32) -> bool
    ensures { result ≡ is_section_or_none s }
{
    (s == NONE) | (s <= MOST_SECTION)
}

fn is_address(a: ByteOffset) -> bool
    ensures { result ≡ is_address a.0 }
{
    a.0 <= MOST_ADDRESS
}

fn code_good(t: &[u8], k: usize) -> bool
    requires { row_size Code * k + row_size Code ≤ length t.now }
    ensures { result ≡ is_good Code t.now k }
{
    let section = code_section(t, k);
    let last = code_section(t, k.saturating_sub(1)); // or row 0 again
    is_section(section) & ((k == 0) | (last < section))
}

fn symbol_good(t: &[u8], k: usize) -> bool
    requires { row_size Symbols * k + row_size Symbols ≤ length t.now }
    ensures { result ≡ is_good Symbols t.now k }
{
    let index = symbol_index(t, k);
    let last = symbol_index(t, k.saturating_sub(1));
    (index != NONE)
        & is_section_or_none(symbol_section(t, k))
        & is_address(symbol_address(t, k))
        & (symbol_kind(t, k) <= SymbolKind::Section as u8)
        & all_zero(t, SYMBOL_SIZE * k + 17, 7)
        & ((k == 0) | (last < index))
}

fn function_good(t: &[u8], k: usize) -> bool
    requires { row_size Functions * k + row_size Functions ≤ length t.now }
    ensures { result ≡ is_good Functions t.now k }
{
    let section = function_section(t, k);
    let slots = function_slots(t, k);
    let address = function_address(t, k);
    let offset = function_offset(t, k);
    let last = k.saturating_sub(1);
    is_section(section)
        & (1 <= slots.0)
        & (slots.0 <= MOST_FUNCTION_SLOTS)
        & is_address(address)
        & is_address(offset)
        & (offset.0 % 8 == 0)
        & ((k == 0)
            | is_before(
                function_section(t, last),
                function_address(t, last),
                section,
                address,
            ))
}

fn relocation_good(t: &[u8], k: usize) -> bool
    requires { row_size Relocations * k + row_size Relocations ≤ length t.now }
    ensures { result ≡ is_good Relocations t.now k }
{
    let section = relocation_section(t, k);
    let offset = relocation_offset(t, k);
    let last = k.saturating_sub(1);
    is_section(section)
        & (relocation_symbol(t, k) != NONE)
        & is_address(offset)
        & all_zero(t, RELOCATION_SIZE * k + 17, 7)
        & ((k == 0)
            | is_before(
                relocation_section(t, last),
                relocation_offset(t, last),
                section,
                offset,
            ))
}

// One symbol in both rows, or none in both and one section.
fn same_map(t: &[u8], j: usize, k: usize) -> bool
    requires { (j < k) × (row_size Maps * k + row_size Maps ≤ length t.now) }
    ensures { result ≡ same_map t.now j k }
{
    let symbol = map_symbol(t, k);
    (map_symbol(t, j) == symbol) & ((symbol != NONE) | (map_section(t, j) == map_section(t, k)))
}

fn is_doubled(t: &[u8], k: usize) -> bool
    requires { row_size Maps * k + row_size Maps ≤ length t.now }
    ensures { result ≡ any_from (λ j. same_map t.now j k) 0 k }
{
    (0..k).any(|j| same_map(t, j, k))
}

fn map_good(t: &[u8], k: usize) -> bool
    requires { row_size Maps * k + row_size Maps ≤ length t.now }
    ensures { result ≡ is_good Maps t.now k }
{
    is_section(map_section(t, k))
        & (map_has_data(t, k) <= HAS_DATA)
        & all_zero(t, MAP_SIZE * k + 13, 3)
        & !is_doubled(t, k)
}

// Each table has a test of its own, so a match and no table of functions.
pub fn is_good(table: Table, t: &[u8], k: usize) -> bool
    requires { row_size table * k + row_size table ≤ length t.now }
    ensures { result ≡ is_good table t.now k }
{
    match table {
        Table::Code => code_good(t, k),
        Table::Symbols => symbol_good(t, k),
        Table::Functions => function_good(t, k),
        Table::Relocations => relocation_good(t, k),
        Table::Maps => map_good(t, k),
        Table::Instructions | Table::FuncInfo | Table::LineInfo => true,
    }
}
