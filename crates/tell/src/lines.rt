// A line of words: lines of a text, with numbers in the places that they keep for them.
ghost use Rattle.std.specs.Prelude.{◌≡◌, [], ◌∷◌, ◌*◌, ◌^◌, ◌≤◌, ◌<◌, ◌++◌, List, ℕ, length, get_or, take, drop, ◌==◌, position};
ghost use Rattle.tell.specs.Lines.{added, hex_of, mark_of, place_of, decimal, byte_words, bytes_words};
ghost use Rattle.tell.specs.Lines.{line_room, zeros_behind, marked, plain, behind, line_from, words_in, spoken};
ghost use Rattle.std.proofs.Common.{arith, length-take-le, take-append-drop};

use crate::room::LINE;
use std::marker::Model;

// The marks for the next number.
#[derive(Clone, Copy, PartialEq, Eq)]
enum Mark {
    // '#': in decimal
    Decimal,
    // '~': in decimal as a column of four
    Column,
    // '$': its four bytes in hexadecimal, the least first
    Bytes,
    // '%': the same with a space before each
    Spaced,
}

// A text's own lines end so.
const END: u8 = b'\n';

fn mark_of(t: u8) -> Option<Mark>
    ensures { result ≡ mark_of t }
{
    match t {
        b'#' => Some(Mark::Decimal),
        b'~' => Some(Mark::Column),
        b'$' => Some(Mark::Bytes),
        b'%' => Some(Mark::Spaced),
        _ => None,
    }
}

// Any other byte: '^' stands for a line's end.
fn plain(t: u8) -> u8
    ensures { result ≡ plain t }
{
    if t == b'^' { b'\n' } else { t }
}

fn number_at(numbers: &[u32], j: usize) -> u32
    ensures { result ≡ get_or numbers.now j 0 }
{
    numbers.get(j).copied().unwrap_or(0)
}

// By hand, for the reason at `push_number`.
fn hex(d: u8) -> u8
    requires { d < 16 }
    ensures { result ≡ hex_of d }
{
    if d < 10 { b'0' + d } else { b'a' - 10 + d }
}

// A line: its words, and behind them zeros in what is left of its room. What would stand past the end of the room is left out.
#[derive(Clone, Copy)]
pub struct Words {
    bytes: [u8; LINE],
    used: usize,
}

impl Model for Words {
    ghost Value = { List ℕ };

    ghost view = { λ w. take w.used w.bytes };

    // The zeros are for `inverse`, which `Copy` needs: the words alone give the fields back.
    ghost invariant = { λ w. (w.used ≤ line_room) × (length w.bytes ≡ line_room) × (drop w.used w.bytes ≡ zeros_behind w.used) };

    ghost inverse = { λ v. record { bytes = v ++ zeros_behind (length v); used = length v } };

    ghost inverse_ok = { λ w h i.
        let used : length (take w.used w.bytes) ≡ w.used = length-take-le w.used w.bytes (omega (arith, h.0, h.1)) in
        let bytes : take w.used w.bytes ++ zeros_behind (length (take w.used w.bytes)) ≡ w.bytes = rw (used, ← h.2) (take-append-drop w.used w.bytes) in
        record { bytes = bytes i; used = used i } };
}

impl Words {
    fn new() -> Self
        ensures { result ≡ [] }
    {
        Words {
            bytes: [0; LINE],
            used: 0,
        }
    }

    pub fn as_bytes(&self) -> &[u8]
        ensures { result.now ≡ self.now }
    {
        &self.bytes[..self.used]
    }

    fn push(&mut self, b: u8)
        ensures { self.new ≡ added (b ∷ []) self.old }
    {
        if self.used < LINE {
            self.bytes[self.used] = b;
            self.used += 1;
        }
    }

    // A digit, or what stands for a zero before the first digit: a space or nothing.
    // The two flags are place_of's.
    #[tactic(auto, using(crate::proofs::Added::none))]
    fn push_place(&mut self, d: u32, begun: bool, blank: bool)
        requires { d < 10 }
        ensures { self.new ≡ added (place_of begun blank d) self.old }
    {
        if begun {
            self.push(b'0' + d as u8);
        } else if blank {
            self.push(b' ');
        }
    }

    // In decimal, with spaces before it up to `width`. By hand, as the bytes are: as far as its contract says, std's `write!` may fail, and
    // `spoken_line` cannot.
    #[tactic(auto, using(crate::proofs::Added::none, crate::proofs::Spelled::digits_on, crate::proofs::Spelled::digits_end))]
    fn push_number(&mut self, n: u32, width: u32)
        ensures { self.new ≡ added (decimal width n) self.old }
    {
        let mut begun = false;
        for k in 0..10u32 {
            let left = 10 - k;
            let d = n / 10u32.pow(left - 1) % 10;
            begun = begun | (d != 0) | (left == 1);
            self.push_place(d, begun, left <= width);
        }
    }

    #[tactic(auto, using(crate::proofs::Added::then))]
    fn push_byte(&mut self, b: u8)
        ensures { self.new ≡ added (byte_words b) self.old }
    {
        self.push(hex(b / 16));
        self.push(hex(b % 16));
    }

    // Four bytes, the least first. The flag is bytes_words'.
    #[tactic(auto, using(crate::proofs::Added::none, crate::proofs::Spelled::four, crate::proofs::Spelled::bytes_on, crate::proofs::Spelled::bytes_end))]
    fn push_bytes(&mut self, n: u32, spaced: bool)
        ensures { self.new ≡ added (bytes_words 4 spaced n) self.old }
    {
        for b in n.to_le_bytes() {
            self.push_place(0, false, spaced);
            self.push_byte(b);
        }
    }

    fn push_marked(&mut self, mark: Mark, n: u32)
        ensures { self.new ≡ added (marked mark n) self.old }
    {
        match mark {
            Mark::Decimal => self.push_number(n, 1),
            Mark::Column => self.push_number(n, 4),
            Mark::Bytes => self.push_bytes(n, false),
            Mark::Spaced => self.push_bytes(n, true),
        }
    }

    // A text's line, with the numbers from number `first` on in its places.
    #[tactic(auto, using(crate::proofs::Added::none, crate::proofs::Spelled::line_end, crate::proofs::Spelled::text_end))]
    fn push_line(&mut self, text: &[u8], numbers: &[u32], first: usize)
        requires { first ≤ 2 ^ 62 }
        ensures { self.new ≡ added (words_in text.now numbers.now first) self.old }
    {
        let mut j = first;
        for t in text {
            if *t == END {
                return;
            }
            match mark_of(*t) {
                Some(mark) => {
                    self.push_marked(mark, number_at(numbers, j));
                    j += 1;
                }
                None => self.push(plain(*t)),
            }
        }
    }
}

fn end_of(text: &[u8]) -> Option<usize>
    ensures { result ≡ position (λ t. t == 10) text.now }
{
    text.iter().position(|t| *t == END)
}

// What stands behind a text's first line.
#[tactic(auto, using(crate::proofs::Spelled::behind_at, crate::proofs::Spelled::behind_none))]
fn behind(text: &[u8]) -> &[u8]
    ensures { result.now ≡ behind text.now }
{
    match end_of(text) {
        Some(end) => &text[end + 1..],
        None => &[],
    }
}

// A text from its line k on. It leaves at the text's end: any number may be asked for, and a text that is used up stays so.
fn line_from(text: &[u8], k: usize) -> &[u8]
    ensures { result.now ≡ line_from text.now k }
{
    let mut rest = text;
    for _ in 0..k {
        if rest.is_empty() {
            return rest;
        }
        rest = behind(rest);
    }
    rest
}

// Lines of a text, one after the other, each with the next three numbers.
// Two lists of any lengths: a number that is not there is 0.
#[tactic(auto, using(crate::proofs::Added::none, crate::proofs::Added::first, crate::proofs::Spelled::spoken_on, crate::proofs::Spelled::spoken_end))]
pub fn spoken_line(text: &[u8], lines: &[usize], numbers: &[u32]) -> Words
    ensures { result ≡ take line_room (spoken text.now lines.now numbers.now 0) }
{
    let mut words = Words::new();
    for (i, k) in lines.iter().enumerate() {
        words.push_line(line_from(text, *k), numbers, 3 * i);
    }
    words
}
