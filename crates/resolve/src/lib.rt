// The judgement of a slot: what it names by section and address, and what the link makes of that.
#![tactic(auto)]

ghost use Rattle.std.specs.Prelude.{◌≡◌, [], ◌+◌, ◌*◌, ◌<◌, ◌≤◌, pos, ◌+ℤ◌};
ghost use Rattle.std.proofs.Math.Option.{some};
ghost use Rattle.rules.specs.declared.Table.TheVariants.{Functions};
ghost use Rattle.rules.specs.Bytes.{little, slot_in};
ghost use Rattle.rules.specs.Lent.{lent_code};
ghost use Rattle.rules.specs.Object as object;
ghost use Rattle.rules.specs.Tables.{section, or_missing, slots_on, by_code, by_symbol, by_symbol_row, by_relocation, object_of};
ghost use Rattle.rules.specs.Rows.{whole_rows, most_address, kind_in, or_none, tables_of};
ghost use Rattle.rules.specs.Rows.{function_section, function_offset, function_row, relocation_symbol, relocation_size, relocation_row, symbol_row};
ghost use Rattle.rules.specs.Lookups.{Sound, function_with, symbol_with, read_row};
ghost use Rattle.resolve.specs.Means.{named_of, Means, option_of, targets};
ghost use Rattle.resolve.specs.Resolves.{Symbolic, Related, Asked, Resolves};

use answers::refusal;
use insn::{after, byte_target, call_target, immediate, insn_is_call, is_wide_load, place};
use rows::fields::{
    function_offset, function_section, function_slots, relocation_size, relocation_symbol,
    symbol_address, symbol_kind, symbol_section,
};
use rows::find::{find_function, find_symbol, is_code};
use rules::limits::NONE;
use rules::{ByteOffset, Cause, Names, Refusal, Slot, SymbolKind};

// Why what a slot names has no row. Numbers are document 01's.
#[derive(Clone, Copy, PartialEq, Eq)]
pub enum Unnamed {
    // 10
    Missing,
    // 3
    UnknownSymbol,
    // 8
    UnknownForm,
}

// What a slot points to: the callee's row, and whether the slot is a reference to it rather than a call.
#[derive(Clone, Copy, PartialEq, Eq)]
pub struct Pointer {
    pub callee: usize,
    pub reference: bool,
}

// Sound tables, an address and a target stay clauses and parameters from here to `by_relocation`: these functions are public and nobody's inner ones,
// so no type may ask in place of a clause; each takes what its sentence of document 01 names.
pub fn by_address(functions: &[u8], home: u32, target: i64) -> Result<Option<usize>, Unnamed>
    requires { Sound Functions functions.now }
    ensures { named_of result ≡ or_missing (function_with functions.now home target) }
{
    match find_function(functions, home, target) {
        Some(k) => Ok(Some(k)),
        None => Err(Unnamed::Missing),
    }
}

// "Section with size 32 targets address + 8 × (immediate + 1), with size 64 address + immediate; anything else 8".
// Any byte is a size to it, and the two are told apart here alone: an enum of them would be no plainer.
pub fn by_section(
    functions: &[u8],
    home: u32,
    address: ByteOffset,
    size: u8,
    imm: i32,
) -> Result<Option<usize>, Unnamed>
    requires { Sound Functions functions.now × (address.0 ≤ most_address) }
    ensures { named_of result ≡ by_code (targets [] functions.now) section (some home) address.0 size imm }
{
    match size {
        32 => by_address(functions, home, call_target(address, imm)),
        64 => by_address(functions, home, byte_target(address, imm)),
        _ => Err(Unnamed::UnknownForm),
    }
}

pub fn by_symbol(
    code: &[u8],
    functions: &[u8],
    kind: SymbolKind,
    home: u32,
    address: ByteOffset,
    size: u8,
    imm: i32,
) -> Result<Option<usize>, Unnamed>
    requires { Symbolic code.now functions.now address.0 }
    ensures { named_of result ≡ by_symbol (targets code.now functions.now) (kind_in kind) (or_none home) address.0 size imm }
{
    if home == NONE {
        return match kind {
            SymbolKind::Text => Err(Unnamed::UnknownForm),
            SymbolKind::Other | SymbolKind::Section => Ok(None),
        };
    }
    match kind {
        SymbolKind::Text => {
            let target = address.0;
            by_address(functions, home, target as i64)
        }
        SymbolKind::Other if is_code(code, home) => Err(Unnamed::UnknownForm),
        SymbolKind::Section if is_code(code, home) => {
            by_section(functions, home, address, size, imm)
        }
        SymbolKind::Other | SymbolKind::Section => Ok(None),
    }
}

// A call without a relocation: its own section, from its own place.
pub fn by_place(
    functions: &[u8],
    row: usize,
    slot: Slot,
    imm: i32,
) -> Result<Option<usize>, Unnamed>
    requires { Sound Functions functions.now × (row < whole_rows Functions functions.now) }
    ensures { named_of result ≡ or_missing (function_with functions.now (function_section functions.now row)
        (pos (function_offset functions.now row + 8 * slot.0) +ℤ slots_on imm)) }
{
    let start = function_offset(functions, row);
    let here = place(start, slot);
    by_address(
        functions,
        function_section(functions, row),
        call_target(here, imm),
    )
}

// The symbol of relocation k.
pub fn by_row(names: Names, k: usize, imm: i32) -> Result<Option<usize>, Unnamed>
    requires { Related names.code.now names.symbols.now names.functions.now names.relocations.now k }
    ensures { named_of result ≡ by_symbol_row (targets names.entry.code.now names.entry.functions.now)
        (read_row (symbol_row names.entry.symbols.now)
        (symbol_with names.entry.symbols.now (relocation_symbol names.entry.relocations.now k)))
        (relocation_size names.entry.relocations.now k) imm }
{
    let symbol = relocation_symbol(names.relocations, k);
    let Some(s) = find_symbol(names.symbols, symbol) else {
        return Err(Unnamed::UnknownSymbol);
    };
    by_symbol(
        names.code,
        names.functions,
        SymbolKind::from(symbol_kind(names.symbols, s)),
        symbol_section(names.symbols, s),
        symbol_address(names.symbols, s),
        relocation_size(names.relocations, k),
        imm,
    )
}

pub fn by_relocation(
    names: Names,
    instructions: &[u8],
    row: usize,
    slot: Slot,
    at: Slot,
    rel: Option<usize>,
) -> Result<Option<usize>, Unnamed>
    requires { Asked (lent_code names instructions.now) row at.0 rel }
    ensures { named_of result ≡ by_relocation (tables_of little (lent_code names.entry instructions.now))
        (read_row (relocation_row names.entry.relocations.now) (option_of rel)) (function_row names.entry.functions.now row) slot.0
        (slot_in little instructions.now at.0) }
{
    match rel {
        Some(k) => by_row(names, k, immediate(instructions, at)),
        None if insn_is_call(instructions, at) => {
            by_place(names.functions, row, slot, immediate(instructions, at))
        }
        None => Ok(None),
    }
}

// None: the slot is copied as it stands. The two flags are two facts of one slot, as `decide` of the definitions takes them.
pub fn decide(
    is_call: bool,
    is_wide: bool,
    named: Result<Option<usize>, Unnamed>,
    row: u32,
    slot: Slot,
) -> Result<Option<Pointer>, Refusal>
    ensures { Means row slot.0 result (object.decide is_call is_wide (named_of named)) }
{
    match named {
        Ok(None) if !is_call => Ok(None),
        Ok(None) => Err(refusal(Cause::NoCode, row, slot.0)),
        Ok(Some(callee)) if is_call | is_wide => {
            let reference = !is_call;
            Ok(Some(Pointer { callee, reference }))
        }
        Err(Unnamed::Missing) if is_call | is_wide => {
            Err(refusal(Cause::UnknownFunction, row, slot.0))
        }
        Ok(Some(_)) | Err(Unnamed::Missing) => Err(refusal(Cause::NotWideLoad, row, slot.0)),
        Err(Unnamed::UnknownSymbol) => Err(refusal(Cause::UnknownSymbol, row, slot.0)),
        Err(Unnamed::UnknownForm) => Err(refusal(Cause::UnknownForm, row, slot.0)),
    }
}

// What the link makes of a slot. None: it is copied as it stands.
// Row, first and slot are counters of the caller's loop: a struct of them would be built for each slot, to be taken apart here.
pub fn resolve(
    names: Names,
    instructions: &[u8],
    row: usize,
    first: Slot,
    slot: Slot,
    rel: Option<usize>,
) -> Result<Option<Pointer>, Refusal>
    requires { Resolves (lent_code names instructions.now) row first.0 slot.0 rel }
    ensures { Means row slot.0 result
        (object.meaning (object_of (tables_of little (lent_code names.entry instructions.now))) row slot.0) }
{
    let at = after(first, slot);
    let is_call = insn_is_call(instructions, at);
    if rel.is_none() && !is_call {
        return Ok(None); // most slots
    }
    let slots = function_slots(names.functions, row);
    let end = after(first, slots);
    let named = by_relocation(names, instructions, row, slot, at, rel);
    decide(
        is_call,
        is_wide_load(instructions, at, end),
        named,
        row as u32,
        slot,
    )
}
