// A line for each slot of the image, written out. The words are tell's. That the image is none longer than bark's own stays a clause: what is
// lent here is any caller's. (The status: telling.rt.)
ghost use Rattle.std.specs.Prelude.{◌≡◌, true, ◌≤◌, length};
ghost use Rattle.clerk.specs.Status.{either, status_in};
ghost use Rattle.tell.specs.Room.{own_most};

use crate::status::Stop;
use crate::telling::{ended, say};
use std::io;
use tell::listing::{Listing, row};

fn rows(rt: &impl Print, listing: Listing) -> io::Result<()>
    requires { length listing.image.now ≤ own_most }
{
    for slot in 0..listing.image.len() / 8 {
        say(rt, row(listing, slot))?;
    }
    Ok(())
}

pub fn list(rt: &(impl Print + Eprint), listing: Listing) -> Result<(), Stop>
    requires { length listing.image.now ≤ own_most }
    ensures { either 0 4 (status_in result) ≡ true }
{
    ended(rt, rows(rt, listing))
}
