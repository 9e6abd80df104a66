// A slot's relocation, found by a cursor that rises with the slots.
ghost use Rattle.std.specs.Prelude.{◌≡◌, ◌≤◌};
ghost use Rattle.rules.specs.declared.Table.TheVariants.{Relocations};
ghost use Rattle.rules.specs.Lookups.{Sound, found_of, relocation_with, relocations_before};

use rows::find::{is_relocation, is_relocation_before, relocations_before};
use rules::ByteOffset;
use rules::limits::RELOCATION_SIZE;

// At the first relocation that is not before a place of a section.
#[derive(Clone, Copy)]
pub struct Cursor<'a> {
    pub relocations: &'a [u8],
    pub home: u32,
    pub offset: ByteOffset,
    pub row: usize,
    pub ghost sound: { Sound Relocations relocations.now },
    pub ghost stands: { row ≡ relocations_before relocations.now home offset.0 },
}

impl<'a> Cursor<'a> {
    pub fn new(relocations: &'a [u8], home: u32, offset: ByteOffset) -> Cursor<'a>
        requires { Sound Relocations relocations.now }
        ensures table { result.relocations.now ≡ relocations.now }
        ensures place { (result.home ≡ home) × (result.offset.0 ≡ offset.0) }
    {
        let row = relocations_before(relocations, home, offset);
        Cursor {
            relocations,
            home,
            offset,
            row,
        }
    }

    // Moved on to a later place.
    pub fn moved_to(self, offset: ByteOffset) -> Cursor<'a>
        requires { self.offset.0 ≤ offset.0 }
        ensures table { result.relocations.now ≡ self.entry.relocations.now }
        ensures place { (result.home ≡ self.entry.home) × (result.offset.0 ≡ offset.0) }
    {
        let Cursor {
            relocations,
            home,
            row: from,
            ..
        } = self;
        let n = relocations.len() / RELOCATION_SIZE;
        let row = (from..n)
            .find(|k| !is_relocation_before(relocations, *k, home, offset))
            .unwrap_or(n);
        Cursor {
            relocations,
            home,
            offset,
            row,
        }
    }

    // The relocation at the place: where it stands, or none.
    pub fn relocation(self) -> Option<usize>
        ensures { result ≡ found_of (relocation_with self.entry.relocations.now self.entry.home self.entry.offset.0) }
    {
        let n = self.relocations.len() / RELOCATION_SIZE;
        if self.row < n && is_relocation(self.relocations, self.row, self.home, self.offset) {
            return Some(self.row);
        }
        None
    }
}
