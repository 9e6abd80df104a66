// The root is linked; the image and, if asked (`wanted`: there is a fifth argument, or there is none), the list of its pieces are written, and
// the image is listed.
ghost use Rattle.std.specs.Prelude.{◌*◌, ◌≤◌, length};
ghost use Rattle.clerk.specs.Counts.{IsPrefixLen};
ghost use Rattle.tell.specs.Room.{own_most};

use clerk::status::Stop;
use clerk::steps::{Held, link_pieces};
use clerk::{listing, telling, writing};
use rows::fields::function_line_info;
use rules::limits::FUNCTION_SIZE;
use rules::{Image, Places, Program, Table};
use std::env::Env;
use std::fs::Files;
use tell::files::table;
use tell::listing::Listing;
use tell::room::{IMAGE, IMAGE_FUNC_INFO, IMAGE_LINE_INFO, PIECES};
use tell::text::{LINK, LINKED};
use tell::words::{Told, Wording};

// The bytes of so many slots, or of function records, within a buffer. A line record has twice as many.
fn eights(n: u64, buf: &[u8]) -> usize
    requires { n ≤ 2 * 0xFFFF_FFFF }
    ensures { IsPrefixLen result buf.now }
{
    ((8 * n) as usize).min(buf.len())
}

// How many line records are the root's own.
fn own_lines(file: &[u8], root: u32) -> usize {
    let functions = table(file, Table::Functions);
    let k = root as usize;
    if k < functions.len() / FUNCTION_SIZE {
        function_line_info(functions, k) as usize
    } else {
        0
    }
}

// What was placed of the three outputs: parts of arrays of fixed size, since bark holds a counted number of bytes (tell, link_bytes) and no heap.
fn placed<'a>(
    places: Places,
    image: &'a [u8],
    func_info: &'a [u8],
    line_info: &'a [u8],
) -> Program<'a>
    ensures image { length result.instructions.now ≤ length image.now }
    ensures func_info { length result.func_info.now ≤ length func_info.now }
    ensures line_info { length result.line_info.now ≤ length line_info.now }
{
    let n = eights(places.0 as u64, image);
    let m = eights(places.1 as u64, func_info);
    let l = eights(2 * (places.2 as u64), line_info);
    Program {
        instructions: &image[..n],
        func_info: &func_info[..m],
        line_info: &line_info[..l],
    }
}

// The image of an accepted link is written and listed. The list is a file of its own, where one is asked for.
// No longer than bark's own: a clause, since any caller's bytes may be lent.
fn write(
    rt: &(impl Env + Files + Print + Eprint),
    own: usize,
    image: Program,
    wanted: bool,
    pieces: &[u8],
) -> Result<(), Stop>
    requires { (length image.instructions.now ≤ own_most) × ((length image.func_info.now ≤ own_most) × (length image.line_info.now ≤ own_most)) }
{
    writing::write_image(rt, image)?;
    if wanted {
        writing::write_pieces(rt, pieces)?;
    }
    let listing = Listing {
        own,
        pieces,
        image: image.instructions,
        lines: image.line_info,
    };
    listing::list(rt, listing)
}

pub fn link_root(
    rt: &(impl Env + Files + Print + Eprint),
    root: u32,
    held: Held,
    wanted: bool,
) -> Result<(), Stop> {
    let mut slots = [0u8; IMAGE];
    let mut func_info = [0u8; IMAGE_FUNC_INFO];
    let mut line_info = [0u8; IMAGE_LINE_INFO];
    let mut pieces = [0u8; PIECES];
    let mut image = Image {
        slots: &mut slots,
        func_info: &mut func_info,
        line_info: &mut line_info,
    };
    let made = link_pieces(held, root, &mut image, &mut pieces);
    let wording = Wording {
        accepts: LINK,
        refuses: LINK,
        done: LINKED,
    };
    match made {
        Ok(made) => {
            telling::step(rt, Told::from(Ok(made.places)), root, wording)?;
            write(
                rt,
                own_lines(held.file, root),
                placed(made.places, &slots, &func_info, &line_info),
                wanted,
                &pieces[..made.bytes],
            )
        }
        Err(why) => telling::step(rt, Told::from(Err(why)), root, wording),
    }
}
