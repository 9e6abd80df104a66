// Files from a reader. A tables file: eight u32 lengths, then the tables 1 to 8, held as files.rt of tell says. An image file: three u32
// lengths, then the three runs. A pieces file: rows, and nothing else.
// Each promises that what was lent keeps its length: a buffer that is written to says so itself. File and table 6 are two buffers, since
// the map step writes to the second while it reads the first. That the lengths are there is a clause, as in files.rt of tell.
ghost use Rattle.std.specs.Prelude.{◌≡◌, true, ◌≤◌, ◌<◌, length, IfOk, Ok};
ghost use Rattle.clerk.specs.Status.{is_end};
ghost use Rattle.clerk.specs.Filled.{Filled, most_of, unread_of};

use rules::Table;
use std::io;
use tell::files::{EACH, length_of, place_of, start_of};
use tell::room::{IMAGE, IMAGE_LENGTHS, IMAGE_LINE_INFO, ROOM, SHOWN_FUNC_INFO, TABLE_LENGTHS};

// How many bytes of a buffer were filled, and whether no read failed. A failed read tells its bytes too: replay's header that is cut short.
#[derive(Clone, Copy)]
pub struct Taken {
    pub bytes: usize,
    pub read: io::Result<()>,
}

// Fills `buf`. A file that ends before and a read that fails are told apart. (std's `read_exact` tells no bytes.)
// The loop's step is what a read gave, so it is no `for`.
pub fn take(reader: &mut impl io::Read, buf: &mut [u8]) -> Taken
    ensures { (length buf.new ≡ length buf.old) × (result.bytes ≤ length buf.old) }
{
    let mut bytes = 0;
    while bytes < buf.len() {
        match reader.read(&mut buf[bytes..]) {
            Ok(0) => {
                break;
            }
            Ok(n) => {
                bytes += n;
            }
            Err(why) => {
                return Taken {
                    bytes,
                    read: Err(why),
                };
            }
        }
    }
    Taken {
        bytes,
        read: Ok(()),
    }
}

// Why a buffer was not filled.
#[derive(Clone, Copy)]
pub enum Lack {
    Less,
    Failed(io::Error),
    NoRoom,
}

fn read_all(reader: &mut impl io::Read, buf: &mut [u8]) -> Result<(), Lack>
    ensures { length buf.new ≡ length buf.old }
{
    let taken = take(reader, buf);
    taken.read.map_err(Lack::Failed)?;
    if taken.bytes < buf.len() {
        return Err(Lack::Less);
    }
    Ok(())
}

// The n bytes of `buf` from `at` on, where it has them.
pub fn fill(reader: &mut impl io::Read, buf: &mut [u8], at: usize, n: usize) -> Result<(), Lack>
    ensures { Filled at n buf.old buf.new result }
{
    if at > buf.len() || n > buf.len() - at {
        return Err(Lack::NoRoom);
    }
    read_all(reader, &mut buf[at..at + n])
}

// Why a file was not had whole. The runs of an image have the numbers of their tables, 6 to 8: the
// words take numbers (tell, of_part), so a Table would be turned into one at both uses.
#[derive(Clone, Copy)]
pub enum Unread {
    NoLengths,
    Failed(io::Error),
    Short(u32),
    Large { table: u32, needs: u32, holds: u32 },
    GoesOn,
    NotClosed,
}

// No From: the table and the two numbers come beside what is lacking.
fn unread_of(lack: Lack, table: u32, needs: u32, holds: u32) -> Unread
    ensures { result ≡ unread_of lack table needs holds }
{
    match lack {
        Lack::Less => Unread::Short(table),
        Lack::Failed(why) => Unread::Failed(why),
        Lack::NoRoom => Unread::Large {
            table,
            needs,
            holds,
        },
    }
}

// The lengths that a file begins with.
fn read_lengths(reader: &mut impl io::Read, lengths: &mut [u8]) -> Result<(), Unread>
    ensures { length lengths.new ≡ length lengths.old }
{
    read_all(reader, lengths).map_err(|lack| match lack {
        Lack::Failed(why) => Unread::Failed(why),
        _ => Unread::NoLengths,
    })
}

// The bytes that a table may have: what bark has room for, or any number. There is no third, so a yes or no says which.
fn most_of(bounded: bool, table: Table) -> u32
    ensures { result ≡ most_of bounded table }
{
    if bounded {
        let room = ROOM;
        room[place_of(table)]
    } else {
        u32::MAX
    }
}

// A table of at most so many bytes. `file` and `instructions` stay two slices here: of a struct that holds both to be written, each contract
// would have to say too that it is given back with the same two.
fn read_table(
    reader: &mut impl io::Read,
    most: u32,
    lengths: &[u8],
    file: &mut [u8],
    instructions: &mut [u8],
    table: Table,
) -> Result<(), Unread>
    requires { 32 ≤ length lengths.now }
    ensures { (length file.new ≡ length file.old)
        × (length instructions.new ≡ length instructions.old) }
{
    let needs = length_of(lengths, table);
    let got = if needs > most {
        Err(Lack::NoRoom)
    } else if table == Table::Instructions {
        fill(reader, instructions, 0, needs as usize)
    } else {
        fill(
            reader,
            file,
            start_of(lengths, place_of(table)),
            needs as usize,
        )
    };
    got.map_err(|lack| unread_of(lack, table.number(), needs, most))
}

// The tables that stand after the lengths, which are held with them. Each has at most what bark has room for, where that is asked.
pub fn read_after(
    reader: &mut impl io::Read,
    bounded: bool,
    lengths: &[u8],
    file: &mut [u8],
    instructions: &mut [u8],
) -> Result<(), Unread>
    requires { (32 ≤ length lengths.now) × (32 ≤ length file.old) }
    ensures { (length file.new ≡ length file.old)
        × (length instructions.new ≡ length instructions.old) }
{
    file[..TABLE_LENGTHS].copy_from_slice(&lengths[..TABLE_LENGTHS]);
    for table in EACH {
        read_table(
            reader,
            most_of(bounded, table),
            lengths,
            file,
            instructions,
            table,
        )?;
    }
    Ok(())
}

// All of them, with the lengths.
pub fn read_tables(
    reader: &mut impl io::Read,
    bounded: bool,
    file: &mut [u8],
    instructions: &mut [u8],
) -> Result<(), Unread>
    ensures { (length file.new ≡ length file.old)
        × (length instructions.new ≡ length instructions.old) }
{
    if file.len() < TABLE_LENGTHS {
        return Err(Unread::NoLengths);
    }
    let mut lengths = [0u8; TABLE_LENGTHS];
    read_lengths(reader, &mut lengths)?;
    read_after(reader, bounded, &lengths, file, instructions)
}

// Nothing stands after what was read, and the file is closed: its reader is let go, and std says nothing of how that ends. So no answer is
// that it is not closed.
pub fn finish<R: io::Read + Drop>(mut reader: R) -> Result<(), Unread>
    ensures { is_end result ≡ true }
{
    let mut more = [0u8; 1];
    match reader.read(&mut more) {
        Ok(0) => Ok(()),
        Ok(_) => Err(Unread::GoesOn),
        Err(why) => Err(Unread::Failed(why)),
    }
}

// Run i of an image, of at most so many bytes.
// What it shares with read_table is fill and unread_of: a run has another kind of lengths and a buffer of its own.
fn read_run(
    reader: &mut impl io::Read,
    lengths: &[u8],
    i: usize,
    run: &mut [u8],
    most: u32,
) -> Result<(), Unread>
    requires { (i < 3) × (12 ≤ length lengths.now) }
    ensures { length run.new ≡ length run.old }
{
    let needs = wire::u32_at(lengths, 4 * i);
    let table = i as u32 + 6;
    fill(reader, run, 0, needs as usize).map_err(|lack| unread_of(lack, table, needs, most))
}

// All of an image file, to its end. `lengths` then has its three lengths.
// Three runs and no Image: as at read_table, its contract would have to say that it is given back with the same three.
pub fn read_image<R: io::Read + Drop>(
    mut reader: R,
    lengths: &mut [u8; IMAGE_LENGTHS],
    image: &mut [u8],
    func_info: &mut [u8],
    line_info: &mut [u8],
) -> Result<(), Unread>
    ensures { (length lengths.new ≡ 12) × ((length image.new ≡ length image.old)
        × ((length func_info.new ≡ length func_info.old)
        × (length line_info.new ≡ length line_info.old))) }
{
    read_lengths(&mut reader, lengths)?;
    read_run(&mut reader, lengths, 0, image, IMAGE as u32)?;
    read_run(&mut reader, lengths, 1, func_info, SHOWN_FUNC_INFO as u32)?;
    read_run(&mut reader, lengths, 2, line_info, IMAGE_LINE_INFO as u32)?;
    finish(reader)
}

// All of a pieces file, to its end, and how many bytes it has. It goes on where it is longer than `pieces`.
pub fn read_pieces<R: io::Read + Drop>(mut reader: R, pieces: &mut [u8]) -> Result<usize, Unread>
    ensures { (length pieces.new ≡ length pieces.old) × IfOk result (λ bytes. bytes ≤ length pieces.old) }
{
    let taken = take(&mut reader, pieces);
    taken.read.map_err(Unread::Failed)?;
    finish(reader)?;
    Ok(taken.bytes)
}
