// The fields of row k of a list: a reader for each by its name, as rows has them; bytes and row side by side, and room for the row as a
// clause, here and in tiles.rt and order.rt.
ghost use Rattle.std.specs.Prelude.{◌≡◌, ◌+◌, ◌*◌, ◌≤◌, length};
ghost use Rattle.rules.specs.Pieces.{piece_size, piece_row, piece_start};

use rules::Slot;
use rules::limits::PIECE_SIZE;
use wire::u32_at;

pub fn piece_row(t: &[u8], k: usize) -> u32
    requires { piece_size * k + piece_size ≤ length t.now }
    ensures { result ≡ piece_row t.now k }
{
    u32_at(t, PIECE_SIZE * k)
}

pub fn piece_start(t: &[u8], k: usize) -> Slot
    requires { piece_size * k + piece_size ≤ length t.now }
    ensures { result.0 ≡ piece_start t.now k }
{
    Slot(u32_at(t, PIECE_SIZE * k + 4))
}
