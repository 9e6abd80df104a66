// The map step: every relocation of every function judged, then all that apply rewritten in place.
#![tactic(auto)]

ghost use Rattle.std.specs.Prelude.{◌≡◌, ◌≤◌, ◌<◌, eqb, leb};
ghost use Rattle.rules.specs.declared.Table.TheVariants.{Functions, Relocations};
ghost use Rattle.rules.specs.Answers.{refusal_in};
ghost use Rattle.rules.specs.Bytes.{little};
ghost use Rattle.rules.specs.Entries.{map_entry};
ghost use Rattle.rules.specs.Lent.{lent_maps};
ghost use Rattle.rules.specs.Lookups.{Sound, MapChecked, relocations_before};
ghost use Rattle.rules.specs.Rows.{whole_rows};
ghost use Rattle.judge.specs.Verdicts.{value_of};
ghost use Rattle.judge.specs.Judged.{RowAsked, Asked};
ghost use Rattle.maps.specs.Passes.{row_refusal, step_refusal, end_of, RelocationsOf};
ghost use Rattle.maps.specs.Passes.{ChangesInside, Changed, OneRewritten, RowRewritten, AllRewritten, Relocated};

use insn::{after, next, place, set_immediate, set_source, slot_at};
use judge::{Change, judge};
use rows::fields::{function_offset, function_section, function_slots};
use rows::find::{is_relocation_before, relocations_before};
use rules::limits::{FUNCTION_SIZE, RELOCATION_SIZE};
use rules::{ByteOffset, Names, Places, Refusal, Slot};
use std::ops::Range;
use tables::checks::check_map_step;

// Its clauses are those of the rows that it reads; one row is read once, so a type for them would be built for one use.
fn end_of(functions: &[u8], row: usize) -> ByteOffset
    requires { Sound Functions functions.now × (row < whole_rows Functions functions.now) }
    ensures { result.0 ≡ end_of functions.now row }
{
    place(
        function_offset(functions, row),
        function_slots(functions, row),
    )
}

// Whether no row of table 4 from k on is before (home, offset).
fn is_past(relocations: &[u8], k: usize, home: u32, offset: ByteOffset) -> bool
    requires { Sound Relocations relocations.now × (k ≤ whole_rows Relocations relocations.now) }
    ensures { result ≡ leb (relocations_before relocations.now home offset.0) k }
{
    k == relocations.len() / RELOCATION_SIZE || !is_relocation_before(relocations, k, home, offset)
}

// And whether k is the first of which this holds.
fn begins_at(relocations: &[u8], k: usize, home: u32, offset: ByteOffset) -> bool
    requires { Sound Relocations relocations.now × (k ≤ whole_rows Relocations relocations.now) }
    ensures { result ≡ eqb k (relocations_before relocations.now home offset.0) }
{
    is_past(relocations, k, home, offset) && (k == 0 || !is_past(relocations, k - 1, home, offset))
}

// relocations_before, sought row by row from a row up to it on: a pass goes over the rows between in any case, and halving costs as much for
// a function of few as for one of many.
fn relocations_until(relocations: &[u8], start: usize, home: u32, offset: ByteOffset) -> usize
    requires { Sound Relocations relocations.now × (start ≤ relocations_before relocations.now home offset.0) }
    ensures { (result ≡ relocations_before relocations.now home offset.0) × (result ≤ whole_rows Relocations relocations.now) }
{
    let n = relocations.len() / RELOCATION_SIZE;
    for k in start..n {
        if is_past(relocations, k, home, offset) {
            return k;
        }
    }
    n
}

// The rows of table 4 that are of the function `row`. They mostly begin at `near`, where those of the function before it end, and are halved
// for only where they don't: a halving waits at each step for the one before, and both passes go over all functions.
// Its clauses are those of what it reads, as at end_of.
fn relocations_of(names: Names, row: usize, near: usize) -> Range<usize>
    requires { Sound Functions names.functions.now × Sound Relocations names.relocations.now × (row < whole_rows Functions names.functions.now) × (near ≤ whole_rows Relocations names.relocations.now) }
    ensures { RelocationsOf names.entry.functions.now names.entry.relocations.now row result.start result.end }
{
    let home = function_section(names.functions, row);
    let offset = function_offset(names.functions, row);
    let start = if begins_at(names.relocations, near, home, offset) {
        near
    } else {
        relocations_before(names.relocations, home, offset)
    };
    let end = relocations_until(names.relocations, start, home, end_of(names.functions, row));
    start..end
}

// The two passes walk alike, each in functions of its own: rewriting refuses nothing, so one walk that takes a closure would have it answer a
// Result that is never an Err.
fn judge_function(
    names: Names,
    maps: &[u8],
    instructions: &[u8],
    row: usize,
    first: Slot,
    own: Range<usize>,
) -> Result<(), Refusal>
    requires { RowAsked (lent_maps names maps.now instructions.now) row first.0 × RelocationsOf names.functions.now names.relocations.now row own.start own.end }
    ensures { refusal_in result ≡ row_refusal (lent_maps names.entry maps.now instructions.now) row }
{
    for k in own {
        judge(names, maps, instructions, row, first, k)?;
    }
    Ok(())
}

fn judge_all(names: Names, maps: &[u8], instructions: &[u8]) -> Result<(), Refusal>
    requires { MapChecked (lent_maps names maps.now instructions.now) }
    ensures { refusal_in result ≡ step_refusal (lent_maps names.entry maps.now instructions.now) }
{
    let n = names.functions.len() / FUNCTION_SIZE;
    let mut first = slot_at(0);
    let mut near = 0;
    for row in 0..n {
        let own = relocations_of(names, row, near);
        near = own.end;
        judge_function(names, maps, instructions, row, first, own)?;
        first = after(first, function_slots(names.functions, row));
    }
    Ok(())
}

// The slot as the map step leaves it.
fn apply(instructions: &mut [u8], change: Change)
    requires { ChangesInside instructions.old change }
    ensures { Changed instructions.old change.here.0 change.fd (value_of change.value) instructions.new }
{
    let here = change.here;
    match change.value {
        None => set_source(instructions, here, 1),
        Some(value) => {
            set_source(instructions, here, 2);
            set_immediate(instructions, next(here), value);
        }
    }
    set_immediate(instructions, here, change.fd);
}

// How many were rewritten: 0 or 1.
// (Row, first and k as judge has them.)
fn rewrite_one(
    names: Names,
    maps: &[u8],
    instructions: &mut [u8],
    row: usize,
    first: Slot,
    k: usize,
) -> u32
    requires { Asked (lent_maps names maps.now instructions.old) row first.0 k }
    ensures { OneRewritten (lent_maps names.entry maps.now instructions.old) row k result instructions.new }
{
    let Ok(Some(change)) = judge(names, maps, instructions, row, first, k) else {
        return 0;
    };
    apply(instructions, change);
    1
}

fn rewrite_function(
    names: Names,
    maps: &[u8],
    instructions: &mut [u8],
    row: usize,
    first: Slot,
    own: Range<usize>,
) -> u32
    requires { RowAsked (lent_maps names maps.now instructions.old) row first.0 × RelocationsOf names.functions.now names.relocations.now row own.start own.end }
    ensures { RowRewritten (lent_maps names.entry maps.now instructions.old) row result instructions.new }
{
    let mut count = 0;
    for k in own {
        count += rewrite_one(names, maps, instructions, row, first, k);
    }
    count
}

fn rewrite_all(names: Names, maps: &[u8], instructions: &mut [u8]) -> u32
    requires { MapChecked (lent_maps names maps.now instructions.old) }
    ensures { AllRewritten (lent_maps names.entry maps.now instructions.old) result instructions.new }
{
    let rows = names.functions.len() / FUNCTION_SIZE;
    let mut first = slot_at(0);
    let mut near = 0;
    let mut count = 0;
    for row in 0..rows {
        let own = relocations_of(names, row, near);
        near = own.end;
        count += rewrite_function(names, maps, instructions, row, first, own);
        first = after(first, function_slots(names.functions, row));
    }
    count
}

// Tables 1 to 6; table 6 is rewritten in place, only once nothing is refused.
pub fn relocate_maps(names: Names, maps: &[u8], instructions: &mut [u8]) -> Result<Places, Refusal>
    ensures { Relocated (map_entry little (lent_maps names.entry maps.now instructions.old)) result instructions.new }
{
    check_map_step(names, maps, instructions)?;
    judge_all(names, maps, instructions)?;
    let count = rewrite_all(names, maps, instructions);
    Ok(Places(count, 0, 0))
}
