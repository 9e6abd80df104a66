// The pieces of a link in order of placing, which is the order of their starts: written from the starts alone.
ghost use Rattle.std.specs.Prelude.{◌≡◌, ◌+◌, ◌*◌, ◌≤◌, eqb, length, position};
ghost use Rattle.rules.specs.Bytes.{splice};
ghost use Rattle.rules.specs.Pieces.{piece_size};
ghost use Rattle.pieces.specs.InOrder.{piece_bytes, Lists, Puts};

use rows::fields::function_slots;
use rules::limits::{FUNCTION_SIZE, MOST_FUNCTIONS, PIECE_SIZE};
use wire::put_numbers;

fn put_piece(out: &mut [u8], k: usize, row: u32, start: u32)
    requires { piece_size * k + piece_size ≤ length out.old }
    ensures { out.new ≡ splice out.old (piece_size * k) (piece_bytes row start) }
{
    put_numbers(out, PIECE_SIZE * k, [row, start]);
}

// The first function that starts there.
fn find_start(starts: &[u16], at: u16) -> Option<usize>
    ensures { result ≡ position (λ start. eqb start at) starts.now }
{
    starts.iter().position(|start| *start == at)
}

// The root at 0, then each function that starts where the piece before it ends, up to the image's end; gives how many. At most as many follow
// the root as table 3 has rows. The starts are an array of fixed size, for want of a heap: as many of them count as table 3 has rows.
pub fn put_list(
    functions: &[u8],
    starts: &[u16; MOST_FUNCTIONS],
    root: u32,
    end: u32,
    out: &mut [u8],
) -> usize
    requires { Lists functions.now root end out.old }
    ensures { Puts functions.now starts.now root end out.old out.new result }
{
    put_piece(out, 0, root, 0);
    let n = functions.len() / FUNCTION_SIZE;
    let mut at = function_slots(functions, root as usize).0;
    for count in 1..n + 1 {
        if at >= end {
            return count;
        }
        let Some(row) = find_start(&starts[..n], at as u16) else {
            return count;
        };
        put_piece(out, count, row as u32, at);
        at += function_slots(functions, row).0;
    }
    n + 1
}
