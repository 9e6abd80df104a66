// The slots of a piece, each against its source slot (39 to 41, and what the link refuses).
ghost use Rattle.std.specs.Prelude.{◌≡◌, [], ◌+◌, ◌*◌, ◌≤◌, length};
ghost use Rattle.rules.specs.Bytes.{little, slot_in, slot_size};
ghost use Rattle.std.proofs.Math.Option.{some};
ghost use Rattle.rules.specs.Answers.{reply, refusal_in};
ghost use Rattle.rules.specs.Object as object;
ghost use Rattle.rules.specs.Faithful as faithful;
ghost use Rattle.rules.specs.Tables.{object_of};
ghost use Rattle.rules.specs.Lent.{lent_code};
ghost use Rattle.rules.specs.Rows.{tables_of};
ghost use Rattle.rules.specs.Pieces.{pieces_of};
ghost use Rattle.rules.specs.Examine.{same_form, same_head, same_slot, shown, claim_of, slots_wrong};
ghost use Rattle.pieces.specs.Tiling.{StartsRise};
ghost use Rattle.resolve.specs.Means.{Means};
ghost use Rattle.resolve.specs.Resolves.{Resolves};
ghost use Rattle.examine.specs.Compared.{is_plain, Slots, Callable, rise_prop, Visits, target_wrong, call_wrong, reference_wrong, meant_wrong};

use crate::cursor::Cursor;
use crate::piece::Piece;
use answers::finding;
use insn::{after, destination, immediate, opcode, place, slot_at, source, start_of};
use pieces::tiles::starts_at;
use resolve::{Pointer, resolve};
use rows::fields::{function_offset, function_section, function_slots};
use rules::{Cause, Names, Refusal, Slot};
use walk::ahead;
use wire::{u16_at, u32_at, u64_at};

// Three comparisons, each of other bytes: one word is quicker than its fields, and three fields lie in two words. They take the slices themselves,
// and are no methods of `Compared`: that its items are bytes is known of a slice that is a parameter, not of a field.

// All that a reference may not change.
fn same_form(a: &[u8], i: Slot, b: &[u8], j: Slot) -> bool
    requires { Slots a.now i.0 b.now j.0 }
    ensures { result ≡ same_form (slot_in little a.now i.0) (slot_in little b.now j.0) }
{
    opcode(a, i) == opcode(b, j)
        && destination(a, i) == destination(b, j)
        && u16_at(a, start_of(i) + 2) == u16_at(b, start_of(j) + 2)
}

// All that a call may not change: one word.
fn same_head(a: &[u8], i: Slot, b: &[u8], j: Slot) -> bool
    requires { Slots a.now i.0 b.now j.0 }
    ensures { result ≡ same_head (slot_in little a.now i.0) (slot_in little b.now j.0) }
{
    u32_at(a, start_of(i)) == u32_at(b, start_of(j))
}

// The eight bytes: one word.
fn same_slot(a: &[u8], i: Slot, b: &[u8], j: Slot) -> bool
    requires { Slots a.now i.0 b.now j.0 }
    ensures { result ≡ same_slot (slot_in little a.now i.0) (slot_in little b.now j.0) }
{
    u64_at(a, start_of(i)) == u64_at(b, start_of(j))
}

// A slot of the image, `here`, with its source slot, `at`: slot `slot` of piece k.
#[derive(Clone, Copy)]
struct Compared<'a> {
    instructions: &'a [u8],
    at: Slot,
    image: &'a [u8],
    here: Slot,
    pieces: &'a [u8],
    k: u32,
    slot: Slot,
    ghost own: { slot_size * here.0 + slot_size ≤ length image.now },
    ghost source: { slot_size * at.0 + slot_size ≤ length instructions.now },
    ghost rise: { StartsRise pieces.now } by { rise_prop pieces.now },
}

impl Compared<'_> {
    fn changed(self) -> Result<(), Refusal>
        ensures { refusal_in result ≡ some (reply 39 self.entry.k self.entry.slot.0 self.entry.here.0) }
    {
        Err(finding(Cause::SlotChanged, self.k, self.slot.0, self.here.0))
    }

    // The slot points to the start of a piece of the callee (41).
    fn check_target(self, callee: u32) -> Result<(), Refusal>
        ensures { refusal_in result ≡ target_wrong (pieces_of self.entry.pieces.now) self.entry.k self.entry.slot.0 self.entry.here.0
            (slot_in little self.entry.image.now self.entry.here.0) callee }
    {
        let target = ahead(self.here, 1, immediate(self.image, self.here));
        if starts_at(self.pieces, target, callee) {
            return Ok(());
        }
        Err(finding(Cause::WrongTarget, self.k, self.slot.0, callee))
    }

    // A call keeps its source register; a reference (below) gets 4.
    fn check_call(self, callee: u32) -> Result<(), Refusal>
        ensures { refusal_in result ≡ call_wrong (pieces_of self.entry.pieces.now) self.entry.k self.entry.slot.0 self.entry.here.0
            (slot_in little self.entry.instructions.now self.entry.at.0) (slot_in little self.entry.image.now self.entry.here.0) callee }
    {
        if same_head(self.image, self.here, self.instructions, self.at) {
            return self.check_target(callee);
        }
        self.changed()
    }

    fn check_reference(self, callee: u32) -> Result<(), Refusal>
        ensures { refusal_in result ≡ reference_wrong (pieces_of self.entry.pieces.now) self.entry.k self.entry.slot.0 self.entry.here.0
            (slot_in little self.entry.instructions.now self.entry.at.0) (slot_in little self.entry.image.now self.entry.here.0) callee }
    {
        if !same_form(self.image, self.here, self.instructions, self.at) {
            return self.changed();
        }
        if source(self.image, self.here) != 4 {
            return Err(finding(Cause::NotReference, self.k, self.slot.0, callee));
        }
        self.check_target(callee)
    }

    // By what the link makes of the source slot.
    fn check(self, meaning: Result<Option<Pointer>, Refusal>) -> Result<(), Refusal>
        requires { Callable meaning }
        ensures { refusal_in result ≡ meant_wrong (pieces_of self.entry.pieces.now) self.entry.k self.entry.slot.0 self.entry.here.0
            (slot_in little self.entry.instructions.now self.entry.at.0) (slot_in little self.entry.image.now self.entry.here.0) meaning }
    {
        match meaning {
            Ok(None) if same_slot(self.image, self.here, self.instructions, self.at) => Ok(()),
            Ok(None) => self.changed(),
            Ok(Some(p)) if p.reference => self.check_reference(p.callee as u32),
            Ok(Some(p)) => self.check_call(p.callee as u32),
            Err(why) => Err(why),
        }
    }
}

// No relocation, and no call's opcode.
// Room for the slot is a clause, as insn's readers have it.
fn is_plain(instructions: &[u8], at: Slot, rel: Option<usize>) -> bool
    requires { slot_size * at.0 + slot_size ≤ length instructions.now }
    ensures { result ≡ is_plain rel (slot_in little instructions.now at.0) }
{
    rel.is_none() && opcode(instructions, at) != 0x85
}

// What the link makes of a slot: `resolve`, with a short way for most.
// (Row, first and slot as resolve has them.)
fn meaning_of(
    names: Names,
    instructions: &[u8],
    row: usize,
    first: Slot,
    slot: Slot,
    rel: Option<usize>,
) -> Result<Option<Pointer>, Refusal>
    requires { Resolves (lent_code names instructions.now) row first.0 slot.0 rel }
    ensures { Means row slot.0 result
        (object.meaning (object_of (tables_of little (lent_code names.entry instructions.now))) row slot.0) }
{
    if is_plain(instructions, after(first, slot), rel) {
        return Ok(None);
    }
    resolve(names, instructions, row, first, slot, rel)
}

// The slots of a piece, in rising order.
pub fn check_slots(
    names: Names,
    instructions: &[u8],
    image: &[u8],
    pieces: &[u8],
    piece: Piece,
) -> Result<(), Refusal>
    requires { Visits (lent_code names instructions.now) image.now pieces.now piece.row piece.start.0 piece.part.slots }
    ensures { refusal_in result ≡ slots_wrong
        (tables_of little (lent_code names.entry instructions.now))
        (claim_of little (shown image.now [] [] pieces.now))
        piece.k
        (faithful.piece piece.row piece.start.0) }
{
    let slots = function_slots(names.functions, piece.row).0;
    let home = function_section(names.functions, piece.row);
    let offset = function_offset(names.functions, piece.row);
    let first = slot_at(piece.part.slots);
    let mut cursor = Cursor::new(names.relocations, home, offset);
    for n in 0..slots {
        let slot = slot_at(n);
        cursor = cursor.moved_to(place(offset, slot));
        let meaning = meaning_of(
            names,
            instructions,
            piece.row,
            first,
            slot,
            cursor.relocation(),
        );
        let compared = Compared {
            instructions,
            at: after(first, slot),
            image,
            here: after(piece.start, slot),
            pieces,
            k: piece.k,
            slot,
        };
        compared.check(meaning)?;
    }
    Ok(())
}
