// One relocation tried in one function: skipped, refused, or how its slot is to be rewritten.
#![tactic(auto)]

ghost use Rattle.std.specs.Prelude.{◌≡◌, ◌<◌, ◌^◌};
ghost use Rattle.rules.specs.declared.Table.TheVariants.{Symbols, Maps};
ghost use Rattle.rules.specs.Rows.{whole_rows};
ghost use Rattle.rules.specs.Lookups.{Sound, found_of};
ghost use Rattle.rules.specs.Lent.{lent_maps};
ghost use Rattle.judge.specs.Verdicts.{map_found, data_verdict, map_verdict, row_verdict, symbol_verdict, refused_for};
ghost use Rattle.judge.specs.Verdicts.{Says, SiteAt, SiteAsked, DataAsked, Tabled};
ghost use Rattle.judge.specs.Judged.{Asked, Judges};

use answers::refusal;
use insn::{
    after, immediate, insn_is_call, is_on_grid, is_wide_load, offset_at, to_offset, to_slot, value,
};
use rows::fields::{
    function_offset, function_slots, map_fd, map_has_data, relocation_offset, relocation_symbol,
    symbol_address, symbol_kind, symbol_section,
};
use rows::find::{find_map_section, find_map_symbol, find_symbol, is_code};
// Numbers as they stand in a row's bytes, which rows reads as such.
use rules::limits::{HAS_DATA, NONE};
use rules::{ByteOffset, Cause, Names, Refusal, Slot, SymbolKind};

// How a slot is to be rewritten.
#[derive(Clone, Copy)]
pub struct Change {
    pub here: Slot,
    pub fd: i32,
    // with data: the next slot's immediate
    pub value: Option<i32>,
}

// What is read of a relocation's slot: where it stands, in its function and in table 6, and what it holds.
#[derive(Clone, Copy)]
pub struct Site {
    pub row: u32,
    pub slot: Slot,
    pub here: Slot,
    pub imm: i32,
    pub call: bool,
    pub wide: bool,
}

impl Site {
    // The slot of a function of `slots` slots, the first of them at `first` in table 6.
    fn read(instructions: &[u8], row: u32, slot: Slot, first: Slot, slots: Slot) -> Site
        requires { SiteAsked instructions.now slot.0 first.0 slots.0 }
        ensures { SiteAt instructions.now row slot.0 first.0 slots.0 result }
    {
        let here = after(first, slot);
        let end = after(first, slots);
        Site {
            row,
            slot,
            here,
            imm: immediate(instructions, here),
            call: insn_is_call(instructions, here),
            wide: is_wide_load(instructions, here, end),
        }
    }

    fn refused(self, cause: Cause) -> Result<Option<Change>, Refusal>
        ensures { Says self (refused_for cause) result }
    {
        Err(refusal(cause, self.row, self.slot.0))
    }
}

// Sound tables are clauses here and in `rows`, which answers for any bytes that a caller holds.
fn find_map(maps: &[u8], symbol: u32, home: u32) -> Option<usize>
    requires { Sound Maps maps.now }
    ensures { result ≡ found_of (map_found maps.now symbol home) }
{
    find_map_symbol(maps, symbol).or_else(|| find_map_section(maps, home))
}

// Has-data is the row's byte (rows, fields): a reader that gave a bool would be a second one, for this place alone.
fn by_data(
    maps: &[u8],
    m: usize,
    address: ByteOffset,
    site: Site,
) -> Result<Option<Change>, Refusal>
    requires { DataAsked maps.now m address.0 site }
    ensures { Says site (data_verdict maps.now m address.0 site) result }
{
    let here = site.here;
    let fd = map_fd(maps, m);
    if map_has_data(maps, m) != HAS_DATA {
        return Ok(Some(Change {
            here,
            fd,
            value: None,
        }));
    }
    let sum = value(site.imm, address);
    let Ok(next) = i32::try_from(sum) else {
        return site.refused(Cause::ValueOutside);
    };
    Ok(Some(Change {
        here,
        fd,
        value: Some(next),
    }))
}

// The symbol's number, section and address come from two tables and are used once each: a struct of them would be no plainer.
// That the address is below 2^48 is what insn's value asks.
fn by_map(
    maps: &[u8],
    symbol: u32,
    home: u32,
    address: ByteOffset,
    site: Site,
) -> Result<Option<Change>, Refusal>
    requires { Sound Maps maps.now × (address.0 < 2 ^ 48) }
    ensures { Says site (map_verdict maps.now symbol home address.0 site) result }
{
    let Some(m) = find_map(maps, symbol, home) else {
        return site.refused(Cause::SectionNotFound);
    };
    if !site.wide {
        return site.refused(Cause::NotWideLoad);
    }
    by_data(maps, m, address, site)
}

// By the row of the symbol in table 2.
fn by_row(
    names: Names,
    maps: &[u8],
    s: usize,
    symbol: u32,
    site: Site,
) -> Result<Option<Change>, Refusal>
    requires { Tabled names.code.now names.symbols.now maps.now × (s < whole_rows Symbols names.symbols.now) }
    ensures { Says site (row_verdict names.entry.code.now names.entry.symbols.now maps.now s symbol site) result }
{
    let home = symbol_section(names.symbols, s);
    if home == NONE || site.call || is_code(names.code, home) {
        return Ok(None);
    }
    if SymbolKind::from(symbol_kind(names.symbols, s)) == SymbolKind::Text {
        return site.refused(Cause::SectionNotFound);
    }
    let address = symbol_address(names.symbols, s);
    by_map(maps, symbol, home, address, site)
}

fn by_symbol(names: Names, maps: &[u8], symbol: u32, site: Site) -> Result<Option<Change>, Refusal>
    requires { Tabled names.code.now names.symbols.now maps.now }
    ensures { Says site (symbol_verdict names.entry.code.now names.entry.symbols.now maps.now symbol site) result }
{
    let Some(s) = find_symbol(names.symbols, symbol) else {
        return site.refused(Cause::UnknownSymbol);
    };
    by_row(names, maps, s, symbol, site)
}

// The row k of table 4 in the function `row`, whose first slot in table 6 is `first`. None where the relocation is not for the map step.
// A loop has row and k as its counters and first as a running sum: a struct of them would be built at each call, to be read once.
pub fn judge(
    names: Names,
    maps: &[u8],
    instructions: &[u8],
    row: usize,
    first: Slot,
    k: usize,
) -> Result<Option<Change>, Refusal>
    requires { Asked (lent_maps names maps.now instructions.now) row first.0 k }
    ensures { Judges (lent_maps names.entry maps.now instructions.now) row first.0 k result }
{
    let offset = relocation_offset(names.relocations, k);
    let start = function_offset(names.functions, row);
    let slots = function_slots(names.functions, row);
    if offset < start {
        return Ok(None);
    }
    let at = offset_at(offset.0 - start.0);
    if at >= to_offset(slots) {
        return Ok(None);
    }
    let slot = to_slot(at);
    let function = row as u32;
    if !is_on_grid(at) {
        return Err(refusal(Cause::InvalidRelocationOffset, function, slot.0));
    }
    let site = Site::read(instructions, function, slot, first, slots);
    let symbol = relocation_symbol(names.relocations, k);
    by_symbol(names, maps, symbol, site)
}
