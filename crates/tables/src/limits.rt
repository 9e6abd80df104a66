// More rows than a table may have.
ghost use Rattle.std.specs.Prelude.{◌≡◌};
ghost use Rattle.rules.specs.Rows.{is_too_many};

use rules::Table;

// A partial row counts as one: more bytes than the most rows have.
pub fn too_many(table: Table, t: &[u8]) -> bool
    ensures { result ≡ is_too_many table t.now }
{
    table.row_size() * table.most_rows() < t.len()
}
