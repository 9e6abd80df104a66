// The first broken or partial row of a table.
ghost use Rattle.std.specs.Prelude.{◌≡◌};
ghost use Rattle.rules.specs.Lookups.{found_of};
ghost use Rattle.rules.specs.Rows.{first_broken};

use crate::good::is_good;
use rules::Table;

pub fn first_broken(table: Table, t: &[u8]) -> Option<usize>
    ensures { result ≡ found_of (first_broken table t.now) }
{
    let size = table.row_size();
    let n = t.len() / size;
    (0..n)
        .find(|k| !is_good(table, t, *k))
        .or((t.len() % size != 0).then_some(n))
}
