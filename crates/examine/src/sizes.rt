// The sizes of what is shown (33, 34): whole rows, and no more than an image holds.
ghost use Rattle.std.specs.Prelude.{◌≡◌, ◌*◌, ◌<◌};
ghost use Rattle.rules.specs.Answers.{refusal_in};
ghost use Rattle.rules.specs.Lent.{lent_shown};
ghost use Rattle.rules.specs.Examine.{size_wrong, sizes_wrong};

use answers::refusal;
use rules::limits::{
    FUNC_INFO_SIZE, INSTRUCTION_SIZE, LINE_INFO_SIZE, MOST_IMAGE_FUNC_INFO, MOST_IMAGE_LINE_INFO,
    MOST_IMAGE_SLOTS, PIECE_SIZE,
};
use rules::{Cause, Program, Refusal, Table};

// The list's number in an answer, after those of the eight tables: document 02's, and the list is no table.
pub const LIST_NUMBER: u32 = 9;

#[tactic(auto, unfolding(rules::specs::Examine::size_wrong))]
pub fn check_size(number: u32, size: usize, most: usize, t: &[u8]) -> Result<(), Refusal>
    requires { (0 < size) × (size * most < 0x1_0000_0000) }
    ensures { refusal_in result ≡ size_wrong number size most t.now }
{
    let n = t.len();
    if n > size * most {
        return Err(refusal(Cause::ShownTooLong, number, 0));
    }
    if n % size != 0 {
        return Err(refusal(Cause::ShownPartial, number, (n / size) as u32));
    }
    Ok(())
}

#[tactic(auto, unfolding(rules::specs::Examine::sizes_wrong))]
pub fn check_sizes(shown: Program, pieces: &[u8]) -> Result<(), Refusal>
    ensures { refusal_in result ≡ sizes_wrong (lent_shown shown.entry pieces.now) }
{
    check_size(
        Table::Instructions.number(),
        INSTRUCTION_SIZE,
        MOST_IMAGE_SLOTS,
        shown.instructions,
    )?;
    check_size(
        Table::FuncInfo.number(),
        FUNC_INFO_SIZE,
        MOST_IMAGE_FUNC_INFO,
        shown.func_info,
    )?;
    check_size(
        Table::LineInfo.number(),
        LINE_INFO_SIZE,
        MOST_IMAGE_LINE_INFO,
        shown.line_info,
    )?;
    check_size(LIST_NUMBER, PIECE_SIZE, MOST_IMAGE_SLOTS, pieces)
}
