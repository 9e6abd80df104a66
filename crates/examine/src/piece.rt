// A piece of the list as the examiner comes to it.
use merge::Used;
use rules::Slot;

#[derive(Clone, Copy)]
pub struct Piece {
    // its number in the list
    pub k: u32,
    pub row: usize,
    pub start: Slot,
    // where its row's part begins in tables 6 to 8
    pub part: Used,
    // where its records should begin in the image
    pub funcs: u32,
    pub lines: u32,
}
