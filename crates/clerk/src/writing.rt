// The files that a link writes: the image, three u32 lengths and then the three runs; and the list of its pieces, its rows as they are.
// What is written is no longer than bark's own: a clause, since any caller's bytes may be lent. (The status: telling.rt.)
ghost use Rattle.std.specs.Prelude.{◌≡◌, true, ◌≤◌, length};
ghost use Rattle.clerk.specs.Status.{either, status_in};
ghost use Rattle.tell.specs.Room.{own_most};

use crate::files;
use crate::files::name;
use crate::status::Stop;
use crate::telling::{failed, nameless};
use rules::Program;
use std::env::Env;
use std::fs::{File, Files, OpenFile};
use std::io;
use std::io::Write;
use tell::files::image_lengths;
use tell::room::PATH;
use tell::text::{
    CANNOT_CLOSE, CANNOT_CREATE, CANNOT_WRITE, IMAGE_FILE, NO_OUTPUT_NAME, PIECES_FILE,
};

fn put(out: &mut impl Write, image: Program) -> io::Result<()>
    requires { (length image.instructions.now ≤ own_most) × ((length image.func_info.now ≤ own_most) × (length image.line_info.now ≤ own_most)) }
{
    let lengths = image_lengths(image);
    out.write_all(&lengths)?;
    out.write_all(image.instructions)?;
    out.write_all(image.func_info)?;
    out.write_all(image.line_info)
}

// The system has what was written, for good where the file is one that it can keep so; a pipe or a terminal is none.
fn kept(out: &impl OpenFile) -> io::Result<()> {
    match out.sync_all() {
        Err(e) if e.kind() == io::ErrorKind::InvalidInput => Ok(()),
        synced => synced,
    }
}

// Argument i's file is made, and filled by `put`. What does not get there whole is said; `file` is the text's line that names the file. It
// is closed when its owner lets it go.
fn write<R: Env + Files + Eprint, F: FnOnce(&mut R::File) -> io::Result<()>>(
    rt: &R,
    i: usize,
    file: usize,
    put: F,
) -> Result<(), Stop>
    requires { F.IsAlwaysCallable put }
    ensures { either 0 4 (status_in result) ≡ true }
{
    let mut room = [0u8; PATH];
    let path = name(rt, i, &mut room).map_err(|why| {
        nameless(rt, file, NO_OUTPUT_NAME, why);
        Stop::NoOutput
    })?;
    let stop = |what, why| {
        failed(rt, path.as_bytes(), file, what, why);
        Stop::NoOutput
    };
    let mut out = File::create(rt, path).map_err(|why| stop(CANNOT_CREATE, why))?;
    put(&mut out).map_err(|why| stop(CANNOT_WRITE, why))?;
    kept(&out).map_err(|why| stop(CANNOT_CLOSE, why))
}

// Writes the image file.
pub fn write_image(rt: &(impl Env + Files + Eprint), image: Program) -> Result<(), Stop>
    requires { (length image.instructions.now ≤ own_most) × ((length image.func_info.now ≤ own_most) × (length image.line_info.now ≤ own_most)) }
    ensures { either 0 4 (status_in result) ≡ true }
{
    write(rt, files::IMAGE, IMAGE_FILE, |out| put(out, image))
}

// Writes the pieces file.
pub fn write_pieces(rt: &(impl Env + Files + Eprint), pieces: &[u8]) -> Result<(), Stop>
    ensures { either 0 4 (status_in result) ≡ true }
{
    write(rt, files::PIECES, PIECES_FILE, |out| out.write_all(pieces))
}
