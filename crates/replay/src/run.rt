// The link and the map step of a case, on exactly the bytes that it lends.
ghost use Rattle.std.specs.Prelude.{◌≡◌};
ghost use Rattle.rules.specs.Bytes.{little};
ghost use Rattle.rules.specs.Entries.{link_entry, map_entry};
ghost use Rattle.rules.specs.Lent.{lent_image, lent_by};
ghost use Rattle.merge.specs.Merge.{SameOutputs};
ghost use Rattle.clerk.specs.Steps.{held_offer, held_maps};
ghost use Rattle.barkruffle.specs.Promises.{LinkTold, MapTold};

use barkruffle::{barkruffle_link, barkruffle_relocate_maps};
use clerk::steps::Held;
use rules::{Image, Table};
use tell::files::{names, program, table};

// By the entries that C calls, which tell numbers and places: clerk's steps give a Result. So is map_step.
pub fn link(held: Held, root: u32, image: &mut Image, places: &mut [u8]) -> u32
    ensures told { LinkTold
        places.old
        places.new
        (lent_image image.new)
        result
        (link_entry
        little
        (held_offer held.entry.file.now held.entry.instructions.now)
        root
        (lent_by (lent_image image.old))) }
    ensures same { SameOutputs image.old image.new }
{
    barkruffle_link(
        names(held.file),
        program(held.file, held.instructions),
        root,
        image,
        places,
    )
}

pub fn map_step(file: &[u8], instructions: &mut [u8], places: &mut [u8]) -> u32
    ensures { MapTold
        places.old
        places.new
        instructions.new
        result
        (map_entry little (held_maps file.now instructions.old)) }
{
    barkruffle_relocate_maps(names(file), table(file, Table::Maps), instructions, places)
}
