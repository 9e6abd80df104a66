// Refusals 1, 2 and 13, in document 01's order.
ghost use Rattle.std.specs.Prelude.{◌≡◌, false};
ghost use Rattle.std.proofs.Math.Option.{none};
ghost use Rattle.rules.specs.declared.Table.TheVariants.{Functions};
ghost use Rattle.rules.specs.Answers.{refusal_in};
ghost use Rattle.rules.specs.Lent.{lent, lent_maps};
ghost use Rattle.rules.specs.Rows.{is_too_many, first_broken, or_broken, map_step_refusal, link_refusal};
ghost use Rattle.tables.specs.Folds.{or_too_many, or_wrong_total, or_no_root};

use crate::limits::too_many;
use crate::scan::first_broken;
use crate::totals::total;
use answers::refusal;
use rules::limits::FUNCTION_SIZE;
use rules::{Cause, Names, Program, Refusal, Table};

pub fn few(table: Table, t: &[u8]) -> Result<(), Refusal>
    ensures { refusal_in result ≡ or_too_many (is_too_many table t.now) table none }
{
    if too_many(table, t) {
        return Err(refusal(Cause::TooManyRows, table.number(), 0));
    }
    Ok(())
}

// The row's number fits, since the rows are few.
pub fn unbroken(table: Table, t: &[u8]) -> Result<(), Refusal>
    requires { is_too_many table t.now ≡ false }
    ensures { refusal_in result ≡ or_broken (first_broken table t.now) table none }
{
    match first_broken(table, t) {
        Some(k) => Err(refusal(Cause::BrokenRow, table.number(), k as u32)),
        None => Ok(()),
    }
}

pub fn right_total(table: Table, t: &[u8], functions: &[u8]) -> Result<(), Refusal>
    requires { is_too_many Functions functions.now ≡ false }
    ensures { refusal_in result ≡ or_wrong_total table t.now functions.now none }
{
    let bytes = table.row_size() as u64 * total(table, functions);
    if t.len() as u64 == bytes {
        return Ok(());
    }
    Err(refusal(Cause::BrokenRow, table.number(), 0))
}

pub fn or_no_root(functions: &[u8], root: u32) -> Result<(), Refusal>
    ensures { refusal_in result ≡ or_no_root functions.now root }
{
    if (root as usize) < functions.len() / FUNCTION_SIZE {
        return Ok(());
    }
    Err(refusal(Cause::NoRoot, 0, 0))
}

// Two lists, here and in check_link, each in the order of its definition (map_step_refusal, link_refusal). What both have stands in two runs of
// four lines: functions for them would have contracts longer than the lines.
pub fn check_map_step(names: Names, maps: &[u8], instructions: &[u8]) -> Result<(), Refusal>
    ensures { refusal_in result ≡ map_step_refusal (lent_maps names.entry maps.now instructions.now) }
{
    few(Table::Code, names.code)?;
    few(Table::Symbols, names.symbols)?;
    few(Table::Functions, names.functions)?;
    few(Table::Relocations, names.relocations)?;
    few(Table::Maps, maps)?;
    few(Table::Instructions, instructions)?;
    unbroken(Table::Code, names.code)?;
    unbroken(Table::Symbols, names.symbols)?;
    unbroken(Table::Functions, names.functions)?;
    unbroken(Table::Relocations, names.relocations)?;
    unbroken(Table::Maps, maps)?;
    right_total(Table::Instructions, instructions, names.functions)
}

pub fn check_link(names: Names, program: Program, root: u32) -> Result<(), Refusal>
    ensures { refusal_in result ≡ link_refusal (lent names.entry program.entry) root }
{
    few(Table::Code, names.code)?;
    few(Table::Symbols, names.symbols)?;
    few(Table::Functions, names.functions)?;
    few(Table::Relocations, names.relocations)?;
    few(Table::Instructions, program.instructions)?;
    few(Table::FuncInfo, program.func_info)?;
    few(Table::LineInfo, program.line_info)?;
    unbroken(Table::Code, names.code)?;
    unbroken(Table::Symbols, names.symbols)?;
    unbroken(Table::Functions, names.functions)?;
    unbroken(Table::Relocations, names.relocations)?;
    right_total(Table::Instructions, program.instructions, names.functions)?;
    right_total(Table::FuncInfo, program.func_info, names.functions)?;
    right_total(Table::LineInfo, program.line_info, names.functions)?;
    or_no_root(names.functions, root)
}
