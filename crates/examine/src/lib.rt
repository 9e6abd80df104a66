// An image from elsewhere, examined (document 02, W1): yes, or the first thing that is wrong, in the order of `rules`.
#![tactic(auto)]

ghost use Rattle.std.specs.Prelude.{◌≡◌};
ghost use Rattle.rules.specs.Bytes.{little};
ghost use Rattle.rules.specs.Answers.{refusal_in, reply_of};
ghost use Rattle.rules.specs.Lent.{lent, lent_shown};
ghost use Rattle.rules.specs.Rows.{tables_of};
ghost use Rattle.rules.specs.Pieces.{piece_at, pieces_of};
ghost use Rattle.rules.specs.Examine.{claim_of, wrong_in, pieces_wrong, claim_wrong, examine_entry};
ghost use Rattle.examine.specs.Examined.{Sized, Listed, Pieced};

use crate::piece::Piece;
use crate::records::{check_over, check_records};
use crate::sizes::check_sizes;
use crate::slots::check_slots;
use insn::slot_at;
use merge::part_of;
use pieces::fields::{piece_row, piece_start};
use pieces::tiles::{check_root, check_tiles};
use rows::fields::{function_func_info, function_line_info};
use rules::limits::{INSTRUCTION_SIZE, PIECE_SIZE};
use rules::{Names, Places, Program, Refusal};
use tables::checks::check_link;

pub mod cursor; // cursor.rt: a slot's relocation
pub mod piece; // piece.rt: a piece with what stands before it
pub mod records; // records.rt: records against their sources
pub mod sizes; // sizes.rt: whole rows, within the limits
pub mod slots; // slots.rt: slots against their sources

// Piece k, whose records should stand from `funcs` and from `lines` on in the image.
// The list stays beside what is shown: check_root and check_tiles take it alone, check_records and check_over the other.
fn check_piece(
    names: Names,
    program: Program,
    shown: Program,
    pieces: &[u8],
    k: usize,
    funcs: u32,
    lines: u32,
) -> Result<(), Refusal>
    requires { Pieced (lent names program) (lent_shown shown pieces.now) k funcs lines }
    ensures { refusal_in result ≡ wrong_in
        (tables_of little (lent names.entry program.entry))
        (claim_of little (lent_shown shown.entry pieces.now))
        k
        funcs
        lines
        (piece_at pieces.now k) }
{
    let row = piece_row(pieces, k) as usize;
    let start = piece_start(pieces, k);
    let part = part_of(names.functions, row);
    let piece = Piece {
        k: k as u32,
        row,
        start,
        part,
        funcs,
        lines,
    };
    check_slots(
        names,
        program.instructions,
        shown.instructions,
        pieces,
        piece,
    )?;
    check_records(names.functions, program, shown, piece)
}

// Piece by piece, then what is over.
fn check_pieces(
    names: Names,
    program: Program,
    shown: Program,
    pieces: &[u8],
) -> Result<(), Refusal>
    requires { Listed (lent names program) (lent_shown shown pieces.now) }
    ensures { refusal_in result ≡ pieces_wrong
        (tables_of little (lent names.entry program.entry))
        (claim_of little (lent_shown shown.entry pieces.now))
        0
        0
        0
        (pieces_of pieces.now) }
{
    let mut funcs: u32 = 0;
    let mut lines: u32 = 0;
    for k in 0..pieces.len() / PIECE_SIZE {
        check_piece(names, program, shown, pieces, k, funcs, lines)?;
        let row = piece_row(pieces, k) as usize;
        funcs += function_func_info(names.functions, row);
        lines += function_line_info(names.functions, row);
    }
    check_over(shown, funcs, lines)
}

// The pieces, over checked tables and what is shown in whole rows.
#[tactic(auto, using(crate::proofs::Whole::claim_parts))]
fn check_claim(
    names: Names,
    program: Program,
    root: u32,
    shown: Program,
    pieces: &[u8],
) -> Result<(), Refusal>
    requires { Sized (lent names program) (lent_shown shown pieces.now) }
    ensures { refusal_in result ≡ claim_wrong
        (tables_of little (lent names.entry program.entry))
        (claim_of little (lent_shown shown.entry pieces.now))
        root }
{
    check_root(pieces, root)?;
    let end = (shown.instructions.len() / INSTRUCTION_SIZE) as u32;
    check_tiles(names.functions, pieces, slot_at(end))?;
    check_pieces(names, program, shown, pieces)
}

// Is the image a link of the function at the row root, with these pieces? If not, the first thing that is wrong.
#[tactic(auto, unfolding(rules::specs::Examine::examine_entry, rules::specs::Examine::examine_refusal))]
pub fn examine(
    names: Names,
    program: Program,
    root: u32,
    shown: Program,
    pieces: &[u8],
) -> Result<Places, Refusal>
    ensures { reply_of result ≡ examine_entry little (lent names.entry program.entry) root (lent_shown shown.entry pieces.now) }
{
    check_link(names, program, root)?;
    check_sizes(shown, pieces)?;
    check_claim(names, program, root, shown, pieces)?;
    let n = pieces.len() / PIECE_SIZE;
    Ok(Places(n as u32, 0, 0))
}
