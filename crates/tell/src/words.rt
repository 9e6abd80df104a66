// What a step's answer is told with, and a number in digits.
ghost use Rattle.std.specs.Prelude.{◌≡◌, [], ◌∷◌, ◌+◌, ◌≤◌};
ghost use Rattle.rules.specs.Answers.{reply, reply_of};
ghost use Rattle.tell.specs.Text.{table_line, blank_line};
ghost use Rattle.tell.specs.Words.{digit_of, add_digit, number_in, reason_line, place_line, names_run, answer_lines, answer_numbers};

use crate::text::{
    AFTER, BLANK, CALL, END, ENDS, FUNCTION, NAMES, OVER, PIECE, PIECE_RECORD, PIECE_SLOT, RECORD,
    ROW, SLOT, STARTS, TABLE,
};
use answers::{number, places};
use rules::{Places, Refusal};

// An answer's number and its places, as plain numbers: `answer` tells any four.
#[derive(Clone, Copy)]
pub struct Told {
    pub number: u32,
    pub a: u32,
    pub b: u32,
    pub c: u32,
}

impl From<Result<Places, Refusal>> for Told {
    ghost from_gives = { λ answer told. reply told.number told.a told.b told.c ≡ reply_of answer };

    fn from(answer: Result<Places, Refusal>) -> Self {
        let at = places(answer);
        Told {
            number: number(answer),
            a: at.0,
            b: at.1,
            c: at.2,
        }
    }
}

// The text's line that says why: numbers 1 to 14, then 32 to 44. A sum and no table, since `answer` is given any number.
fn reason_line(number: u32) -> usize
    ensures { result ≡ reason_line number }
{
    let n = number as usize;
    if n > 31 { n - 17 } else { n }
}

// By that line, the one that names the places, but for a table or a run: the definition's own list (specs/Words, place_lines).
const PLACE_LINES: [usize; 28] = [
    END,
    END,
    ROW,
    SLOT,
    SLOT,
    SLOT,
    SLOT,
    SLOT,
    SLOT,
    SLOT,
    CALL,
    FUNCTION,
    RECORD,
    END,
    END,
    END,
    END,
    AFTER,
    END,
    PIECE,
    STARTS,
    ENDS,
    PIECE_SLOT,
    NAMES,
    NAMES,
    PIECE_RECORD,
    PIECE_RECORD,
    OVER,
];

fn place_line(k: usize) -> usize
    ensures { result ≡ place_line k }
{
    PLACE_LINES.get(k).copied().unwrap_or(END)
}

// Whether a number names a run of what is shown: too long, not whole, a record over.
fn names_run(number: u32) -> bool
    ensures { result ≡ names_run number }
{
    matches!(number, 33 | 34 | 44)
}

// Lines of the text, and three numbers to each: the two lists that `spoken_line` takes, which may be any.
#[derive(Clone, Copy)]
pub struct Sentence {
    pub lines: [usize; 5],
    pub numbers: [u32; 15],
}

// The lines that a step's words begin with, where it accepts and where it refuses, and the one that a done step is told with.
#[derive(Clone, Copy)]
pub struct Wording {
    pub accepts: usize,
    pub refuses: usize,
    pub done: usize,
}

fn answer_lines(told: Told, wording: Wording) -> [usize; 5]
    ensures { result ≡ answer_lines told wording.accepts wording.refuses wording.done }
{
    let why = reason_line(told.number);
    let place = place_line(why);
    let name = TABLE + told.a as usize;
    let refuses = wording.refuses;
    if told.number == 0 {
        [wording.accepts, wording.done, BLANK, BLANK, BLANK]
    } else if told.number < 3 {
        [refuses, why, TABLE, name, place]
    } else if names_run(told.number) {
        [refuses, why, name, place, BLANK]
    } else {
        [refuses, why, place, BLANK, BLANK]
    }
}

// What a step answered.
pub fn answer(told: Told, root: u32, wording: Wording) -> Sentence
    ensures { (result.lines ≡ answer_lines told wording.accepts wording.refuses wording.done) × (result.numbers ≡ answer_numbers told root) }
{
    Sentence {
        lines: answer_lines(told, wording),
        numbers: [
            root, 0, 0, told.a, told.b, told.c, told.a, told.b, told.c, told.b, 0, 0, told.b, 0, 0,
        ],
    }
}

// What is wrong with a file: the line that names it, and one with a number.
// No of_part with blanks: the third line names no table, and the number stands where of_part has the table's.
pub fn of_file(file: usize, what: usize, n: u32) -> Sentence
    ensures { (result.lines ≡ file ∷ what ∷ blank_line ∷ blank_line ∷ blank_line ∷ [])
        × (result.numbers ≡ 0 ∷ 0 ∷ 0 ∷ n ∷ 0 ∷ 0 ∷ 0 ∷ 0 ∷ 0 ∷ 0 ∷ 0 ∷ 0 ∷ 0 ∷ 0 ∷ 0 ∷ []) }
{
    Sentence {
        lines: [file, what, BLANK, BLANK, BLANK],
        numbers: [0, 0, 0, n, 0, 0, 0, 0, 0, 0, 0, 0, 0, 0, 0],
    }
}

// And with a table or a run in it, by its name: then a line for two numbers.
pub fn of_part(file: usize, what: usize, table: u32, after: usize, a: u32, b: u32) -> Sentence
    ensures { (result.lines ≡ file ∷ what ∷ (table_line + table) ∷ after ∷ blank_line ∷ [])
        × (result.numbers ≡ 0 ∷ 0 ∷ 0 ∷ table ∷ 0 ∷ 0 ∷ 0 ∷ 0 ∷ 0 ∷ a ∷ b ∷ 0 ∷ 0 ∷ 0 ∷ 0 ∷ []) }
{
    Sentence {
        lines: [file, what, TABLE + table as usize, after, BLANK],
        numbers: [0, 0, 0, table, 0, 0, 0, 0, 0, a, b, 0, 0, 0, 0],
    }
}

// std's to_digit is a char's: by way of one this would be no plainer.
fn digit(b: u8) -> Option<u32>
    ensures { result ≡ digit_of b }
{
    match b {
        b'0'..=b'9' => Some(u32::from(b - b'0')),
        _ => None,
    }
}

fn add_digit(n: u32, b: u8) -> Option<u32>
    ensures { result ≡ add_digit n (digit_of b) }
{
    n.checked_mul(10)?.checked_add(digit(b)?)
}

// Decimal digits, one at least, that a u32 holds. (std's `parse` takes a sign before them.)
#[tactic(auto, unfolding(crate::specs::Words::digits_in, crate::specs::Words::number_in))]
pub fn parse(text: &[u8]) -> Option<u32>
    ensures { result ≡ number_in text.now }
{
    if text.is_empty() {
        return None;
    }
    let mut n = 0;
    for b in text {
        n = add_digit(n, *b)?;
    }
    Some(n)
}
