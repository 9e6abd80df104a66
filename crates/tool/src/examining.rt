// An image and the list of its pieces are read and examined. Nothing is said while they are held.
use crate::work::open;
use clerk::reading::{Unread, read_image, read_pieces};
use clerk::status::Stop;
use clerk::steps::{Held, examine};
use clerk::{files, telling};
use rules::{Places, Program, Refusal};
use std::env::Env;
use std::fs::Files;
use std::io;
use tell::room::{IMAGE, IMAGE_LENGTHS, IMAGE_LINE_INFO, SHOWN_FUNC_INFO, SHOWN_PIECES};
use tell::text::{EXAMINED, IMAGE_FILE, NO, PIECES_FILE, YES};
use tell::words::{Told, Wording};
use wire::u32_at;

// A file that was not had whole: the text's line that names it, and why.
#[derive(Clone, Copy)]
struct Missing {
    file: usize,
    why: Unread,
}

// What is shown, as the lengths cut it: they stand in a file that anybody may have made, so each is at most its buffer's; the
// buffers are arrays, counted by tell's examine_bytes.
// linking.rt's placed cuts by counts of slots and records, and promises the lengths that are written: one over both would take the three
// numbers and their units.
fn shown<'a>(
    lengths: &[u8; IMAGE_LENGTHS],
    image: &'a [u8],
    funcs: &'a [u8],
    lines: &'a [u8],
) -> Program<'a> {
    let n = (u32_at(lengths, 0) as usize).min(image.len());
    let m = (u32_at(lengths, 4) as usize).min(funcs.len());
    let l = (u32_at(lengths, 8) as usize).min(lines.len());
    Program {
        instructions: &image[..n],
        func_info: &funcs[..m],
        line_info: &lines[..l],
    }
}

fn examined<F: io::Read + Drop>(
    root: u32,
    held: Held,
    image_file: F,
    pieces_file: F,
) -> Result<Result<Places, Refusal>, Missing> {
    let mut lengths = [0u8; IMAGE_LENGTHS];
    let mut image = [0u8; IMAGE];
    let mut funcs = [0u8; SHOWN_FUNC_INFO];
    let mut lines = [0u8; IMAGE_LINE_INFO];
    let mut pieces = [0u8; SHOWN_PIECES];
    read_image(image_file, &mut lengths, &mut image, &mut funcs, &mut lines).map_err(|why| {
        Missing {
            file: IMAGE_FILE,
            why,
        }
    })?;
    let p = read_pieces(pieces_file, &mut pieces).map_err(|why| Missing {
        file: PIECES_FILE,
        why,
    })?;
    let program = shown(&lengths, &image, &funcs, &lines);
    Ok(examine(held, root, program, &pieces[..p]))
}

pub fn examine_root(
    rt: &(impl Env + Files + Print + Eprint),
    root: u32,
    held: Held,
) -> Result<(), Stop> {
    let image_file = open(rt, files::IMAGE, IMAGE_FILE)?;
    let pieces_file = open(rt, files::PIECES, PIECES_FILE)?;
    match examined(root, held, image_file, pieces_file) {
        Ok(answer) => {
            let wording = Wording {
                accepts: YES,
                refuses: NO,
                done: EXAMINED,
            };
            telling::step(rt, Told::from(answer), root, wording)
        }
        Err(missing) => telling::read(rt, missing.file, Err(missing.why)),
    }
}
