// The fields of row k, least byte first. A reader for each by its name: one over sizes and places would be no shorter, as each field has its clause.
// Bytes and row are lent side by side: docs/CLAIMS.md asks for a reader for each field and names five, so a type with an invariant may not ask for the room in their place.
ghost use Rattle.std.specs.Prelude.{◌≡◌, ◌+◌, ◌*◌, ◌≤◌, length};
ghost use Rattle.rules.specs.declared.Table.TheVariants.{Code, Symbols, Functions, Relocations, Maps, FuncInfo, LineInfo};
ghost use Rattle.rules.specs.Bytes.{little};
ghost use Rattle.rules.specs.Rows.{row_size};
ghost use Rattle.rules.specs.Rows.{code_section, symbol_index, symbol_section, symbol_address, symbol_kind};
ghost use Rattle.rules.specs.Rows.{function_section, function_slots, function_address, function_offset, function_func_info, function_line_info};
ghost use Rattle.rules.specs.Rows.{relocation_section, relocation_symbol, relocation_offset, relocation_size};
ghost use Rattle.rules.specs.Rows.{map_section, map_symbol, map_fd, map_has_data};
ghost use Rattle.rules.specs.Rows.{record_slot, record_type, record_file, record_line, record_column};

use rules::limits::{
    CODE_SIZE, FUNC_INFO_SIZE, FUNCTION_SIZE, LINE_INFO_SIZE, MAP_SIZE, RELOCATION_SIZE,
    SYMBOL_SIZE,
};
use rules::{ByteOffset, Slot};
use wire::{i32_at, u32_at, u64_at};

pub fn code_section(t: &[u8], k: usize) -> u32
    requires { row_size Code * k + row_size Code ≤ length t.now }
    ensures { result ≡ code_section t.now k }
{
    u32_at(t, CODE_SIZE * k)
}

pub fn symbol_index(t: &[u8], k: usize) -> u32
    requires { row_size Symbols * k + row_size Symbols ≤ length t.now }
    ensures { result ≡ symbol_index t.now k }
{
    u32_at(t, SYMBOL_SIZE * k)
}

pub fn symbol_section(t: &[u8], k: usize) -> u32
    requires { row_size Symbols * k + row_size Symbols ≤ length t.now }
    ensures { result ≡ symbol_section t.now k }
{
    u32_at(t, SYMBOL_SIZE * k + 4)
}

pub fn symbol_address(t: &[u8], k: usize) -> ByteOffset
    requires { row_size Symbols * k + row_size Symbols ≤ length t.now }
    ensures { result.0 ≡ symbol_address t.now k }
{
    ByteOffset(u64_at(t, SYMBOL_SIZE * k + 8))
}

pub fn symbol_kind(t: &[u8], k: usize) -> u8
    requires { row_size Symbols * k + row_size Symbols ≤ length t.now }
    ensures { result ≡ symbol_kind t.now k }
{
    t[SYMBOL_SIZE * k + 16]
}

pub fn function_section(t: &[u8], k: usize) -> u32
    requires { row_size Functions * k + row_size Functions ≤ length t.now }
    ensures { result ≡ function_section t.now k }
{
    u32_at(t, FUNCTION_SIZE * k)
}

pub fn function_slots(t: &[u8], k: usize) -> Slot
    requires { row_size Functions * k + row_size Functions ≤ length t.now }
    ensures { result.0 ≡ function_slots t.now k }
{
    Slot(u32_at(t, FUNCTION_SIZE * k + 4))
}

pub fn function_address(t: &[u8], k: usize) -> ByteOffset
    requires { row_size Functions * k + row_size Functions ≤ length t.now }
    ensures { result.0 ≡ function_address t.now k }
{
    ByteOffset(u64_at(t, FUNCTION_SIZE * k + 8))
}

pub fn function_offset(t: &[u8], k: usize) -> ByteOffset
    requires { row_size Functions * k + row_size Functions ≤ length t.now }
    ensures { result.0 ≡ function_offset t.now k }
{
    ByteOffset(u64_at(t, FUNCTION_SIZE * k + 16))
}

pub fn function_func_info(t: &[u8], k: usize) -> u32
    requires { row_size Functions * k + row_size Functions ≤ length t.now }
    ensures { result ≡ function_func_info t.now k }
{
    u32_at(t, FUNCTION_SIZE * k + 24)
}

pub fn function_line_info(t: &[u8], k: usize) -> u32
    requires { row_size Functions * k + row_size Functions ≤ length t.now }
    ensures { result ≡ function_line_info t.now k }
{
    u32_at(t, FUNCTION_SIZE * k + 28)
}

pub fn relocation_section(t: &[u8], k: usize) -> u32
    requires { row_size Relocations * k + row_size Relocations ≤ length t.now }
    ensures { result ≡ relocation_section t.now k }
{
    u32_at(t, RELOCATION_SIZE * k)
}

pub fn relocation_symbol(t: &[u8], k: usize) -> u32
    requires { row_size Relocations * k + row_size Relocations ≤ length t.now }
    ensures { result ≡ relocation_symbol t.now k }
{
    u32_at(t, RELOCATION_SIZE * k + 4)
}

pub fn relocation_offset(t: &[u8], k: usize) -> ByteOffset
    requires { row_size Relocations * k + row_size Relocations ≤ length t.now }
    ensures { result.0 ≡ relocation_offset t.now k }
{
    ByteOffset(u64_at(t, RELOCATION_SIZE * k + 8))
}

pub fn relocation_size(t: &[u8], k: usize) -> u8
    requires { row_size Relocations * k + row_size Relocations ≤ length t.now }
    ensures { result ≡ relocation_size t.now k }
{
    t[RELOCATION_SIZE * k + 16]
}

pub fn map_section(t: &[u8], k: usize) -> u32
    requires { row_size Maps * k + row_size Maps ≤ length t.now }
    ensures { result ≡ map_section t.now k }
{
    u32_at(t, MAP_SIZE * k)
}

pub fn map_symbol(t: &[u8], k: usize) -> u32
    requires { row_size Maps * k + row_size Maps ≤ length t.now }
    ensures { result ≡ map_symbol t.now k }
{
    u32_at(t, MAP_SIZE * k + 4)
}

pub fn map_fd(t: &[u8], k: usize) -> i32
    requires { row_size Maps * k + row_size Maps ≤ length t.now }
    ensures { result ≡ map_fd t.now k }
{
    i32_at(t, MAP_SIZE * k + 8)
}

pub fn map_has_data(t: &[u8], k: usize) -> u8
    requires { row_size Maps * k + row_size Maps ≤ length t.now }
    ensures { result ≡ map_has_data t.now k }
{
    t[MAP_SIZE * k + 12]
}

pub fn func_info_slot(t: &[u8], k: usize) -> u32
    requires { row_size FuncInfo * k + row_size FuncInfo ≤ length t.now }
    ensures { result ≡ record_slot little FuncInfo t.now k }
{
    u32_at(t, FUNC_INFO_SIZE * k)
}

pub fn func_info_type(t: &[u8], k: usize) -> u32
    requires { row_size FuncInfo * k + row_size FuncInfo ≤ length t.now }
    ensures { result ≡ record_type little t.now k }
{
    u32_at(t, FUNC_INFO_SIZE * k + 4)
}

pub fn line_info_slot(t: &[u8], k: usize) -> u32
    requires { row_size LineInfo * k + row_size LineInfo ≤ length t.now }
    ensures { result ≡ record_slot little LineInfo t.now k }
{
    u32_at(t, LINE_INFO_SIZE * k)
}

pub fn line_info_file(t: &[u8], k: usize) -> u32
    requires { row_size LineInfo * k + row_size LineInfo ≤ length t.now }
    ensures { result ≡ record_file little t.now k }
{
    u32_at(t, LINE_INFO_SIZE * k + 4)
}

pub fn line_info_line(t: &[u8], k: usize) -> u32
    requires { row_size LineInfo * k + row_size LineInfo ≤ length t.now }
    ensures { result ≡ record_line little t.now k }
{
    u32_at(t, LINE_INFO_SIZE * k + 8)
}

pub fn line_info_column(t: &[u8], k: usize) -> u32
    requires { row_size LineInfo * k + row_size LineInfo ≤ length t.now }
    ensures { result ≡ record_column little t.now k }
{
    u32_at(t, LINE_INFO_SIZE * k + 12)
}
