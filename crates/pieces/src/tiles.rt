// A list of pieces as an examiner meets it: the root first, piece after piece to the image's end, and the piece at a start.
ghost use Rattle.std.specs.Prelude.{◌≡◌, ◌&&◌, ◌+◌, ◌*◌, ◌≤◌, eqb, length};
ghost use Rattle.rules.specs.Answers.{refusal_in};
ghost use Rattle.rules.specs.Pieces.{piece_size, piece_row, piece_start, pieces_of};
ghost use Rattle.rules.specs.Examine.{root_wrong, tiles_wrong, starts_at};
ghost use Rattle.pieces.specs.Tiling.{functions_only, Tileable, listed, StartsRise, start_is_before, starts_before};

use crate::fields::{piece_row, piece_start};
use answers::refusal;
use rows::fields::function_slots;
use rules::limits::{FUNCTION_SIZE, PIECE_SIZE};
use rules::{Cause, Refusal, Slot};

// Of fields in bytes: no type has them to derive an equality for.
fn is_piece(t: &[u8], k: usize, row: u32, place: u64) -> bool
    requires { piece_size * k + piece_size ≤ length t.now }
    ensures { result ≡ (eqb (piece_row t.now k) row && eqb (piece_start t.now k) place) }
{
    piece_row(t, k) == row && u64::from(piece_start(t, k).0) == place
}

// A list of less than a row has no first piece.
pub fn check_root(pieces: &[u8], root: u32) -> Result<(), Refusal>
    ensures { refusal_in result ≡ root_wrong root (pieces_of pieces.now) }
{
    if pieces.len() >= PIECE_SIZE && is_piece(pieces, 0, root, 0) {
        return Ok(());
    }
    Err(refusal(Cause::RootNotFirst, 0, 0))
}

// Table 3 alone decides. `at` adds up counts, so it is a u32: only insn makes a Slot of a number (docs/DECISIONS.md).
pub fn check_tiles(functions: &[u8], pieces: &[u8], end: Slot) -> Result<(), Refusal>
    requires { Tileable functions.now pieces.now }
    ensures { refusal_in result ≡ tiles_wrong (functions_only functions.now) end.0 0 0 (pieces_of pieces.now) }
{
    let rows = functions.len() / FUNCTION_SIZE;
    let n = pieces.len() / PIECE_SIZE;
    let mut at: u32 = 0;
    for k in 0..n {
        let row = piece_row(pieces, k);
        if rows <= row as usize {
            return Err(refusal(Cause::NoSuchFunction, k as u32, row));
        }
        if piece_start(pieces, k).0 != at {
            return Err(refusal(Cause::NotTiled, k as u32, at));
        }
        at += function_slots(functions, row as usize).0;
    }
    if at == end.0 {
        return Ok(());
    }
    Err(refusal(Cause::EndsElsewhere, n as u32, at))
}

// How many pieces start before a slot of the image. That the starts rise stays a clause here and of starts_at, which docs/CLAIMS.md names.
// `place` is any u64, so it is no Slot to compare with.
fn starts_before(pieces: &[u8], place: u64) -> usize
    requires { StartsRise pieces.now }
    ensures { (result ≡ starts_before pieces.now place) × (result ≤ listed pieces.now) }
{
    let (rows, _) = pieces.as_chunks::<PIECE_SIZE>();
    rows.partition_point(
        |row: &[u8; PIECE_SIZE]| -> bool
            ensures { result ≡ start_is_before row.now place 0 }
        { u64::from(piece_start(row, 0).0) < place },
    )
}

// Whether a piece of the function `row` starts at `target`.
pub fn starts_at(pieces: &[u8], target: i64, row: u32) -> bool
    requires { StartsRise pieces.now }
    ensures { result ≡ starts_at target row (pieces_of pieces.now) }
{
    let Ok(place) = u64::try_from(target) else {
        return false;
    };
    let k = starts_before(pieces, place);
    k < pieces.len() / PIECE_SIZE && is_piece(pieces, k, row, place)
}
