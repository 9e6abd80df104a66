// What table 3 adds up to.
ghost use Rattle.std.specs.Prelude.{◌≡◌, ◌+◌, ◌*◌, ◌≤◌, ◌<◌, length};
ghost use Rattle.rules.specs.declared.Table.TheVariants.{Functions};
ghost use Rattle.rules.specs.Rows.{row_size, most_rows, whole_rows, function_slots, count_of, total};

use rows::fields::{function_func_info, function_line_info, function_slots};
use rules::Table;
use rules::limits::FUNCTION_SIZE;

// By the table, whose column it is: a match says which.
// Room for row k is a clause, as the readers of rows have it.
fn count_of(table: Table, functions: &[u8], k: usize) -> u32
    requires { row_size Functions * k + row_size Functions ≤ length functions.now }
    ensures { result ≡ count_of table functions.now k }
{
    match table {
        Table::Instructions => function_slots(functions, k).0,
        Table::FuncInfo => function_func_info(functions, k),
        Table::LineInfo => function_line_info(functions, k),
        Table::Code | Table::Symbols | Table::Functions | Table::Relocations | Table::Maps => 0,
    }
}

// As many counts as rows, each below 2^32.
pub fn total(table: Table, functions: &[u8]) -> u64
    requires { whole_rows Functions functions.now ≤ most_rows Functions }
    ensures { (result ≡ total table functions.now) × (result ≤ 0x1_0000_0000 * most_rows Functions) }
{
    (0..functions.len() / FUNCTION_SIZE)
        .map(|k| u64::from(count_of(table, functions, k)))
        .sum()
}
