// The steps over a held tables file (tell, files.rt): the map step, the link, the link with its list, the examination.
ghost use Rattle.std.specs.Prelude.{◌≡◌, length};
ghost use Rattle.rules.specs.Bytes.{little};
ghost use Rattle.rules.specs.Answers.{reply_of};
ghost use Rattle.rules.specs.Entries.{link_entry, map_entry, link_pieces_entry};
ghost use Rattle.rules.specs.Examine.{examine_entry};
ghost use Rattle.rules.specs.Lent.{lent_image, lent_by, lent_shown};
ghost use Rattle.merge.specs.Merge.{SameOutputs};
ghost use Rattle.linker.specs.Linker.{Outcomes};
ghost use Rattle.maps.specs.Passes.{Relocated};
ghost use Rattle.clerk.specs.Steps.{held_maps, held_offer, MadeBy};

use maps::relocate_maps;
use rules::limits::PIECE_SIZE;
use rules::{Image, Places, Program, Refusal, Table};
use tell::files::{names, program, table};

// A tables file as it is held, with table 6 beside it.
// The root stands beside it in what takes it: it is no part of the file, and the library's entries take it beside the tables.
#[derive(Clone, Copy)]
pub struct Held<'a> {
    pub file: &'a [u8],
    pub instructions: &'a [u8],
}

// The map step: table 6 stands apart, since it is written to.
pub fn map_step(file: &[u8], instructions: &mut [u8]) -> Result<Places, Refusal>
    ensures { Relocated (map_entry little (held_maps file.now instructions.old)) result instructions.new }
{
    relocate_maps(names(file), table(file, Table::Maps), instructions)
}

pub fn link(held: Held, root: u32, image: &mut Image) -> Result<Places, Refusal>
    ensures outcomes { Outcomes
        (lent_image image.new)
        result
        (link_entry
        little
        (held_offer held.entry.file.now held.entry.instructions.now)
        root
        (lent_by (lent_image image.old))) }
    ensures same { SameOutputs image.old image.new }
{
    linker::link(
        names(held.file),
        program(held.file, held.instructions),
        image,
        root,
    )
}

// What a link with its list gives: how much it placed, and the bytes of the list.
// The list itself is lent, as in the linker's Listed.
#[derive(Clone, Copy)]
pub struct Made {
    pub places: Places,
    pub bytes: usize,
}

pub fn link_pieces(
    held: Held,
    root: u32,
    image: &mut Image,
    pieces: &mut [u8],
) -> Result<Made, Refusal>
    ensures made { MadeBy
        (link_pieces_entry
        little
        (held_offer held.entry.file.now held.entry.instructions.now)
        root
        (lent_by (lent_image image.old))
        (length pieces.old))
        (lent_image image.new)
        pieces.new
        result }
    ensures same { SameOutputs image.old image.new }
{
    let listed = linker::link_pieces(
        names(held.file),
        program(held.file, held.instructions),
        image,
        pieces,
        root,
    )?;
    Ok(Made {
        places: listed.places,
        bytes: PIECE_SIZE * listed.count,
    })
}

// Whether an image with its list, whoever made it, is the root linked.
pub fn examine(held: Held, root: u32, image: Program, pieces: &[u8]) -> Result<Places, Refusal>
    ensures { reply_of result ≡ examine_entry
        little
        (held_offer held.entry.file.now held.entry.instructions.now)
        root
        (lent_shown image.entry pieces.now) }
{
    examine::examine(
        names(held.file),
        program(held.file, held.instructions),
        root,
        image,
        pieces,
    )
}
