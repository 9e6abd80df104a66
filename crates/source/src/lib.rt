// The source walk of demand 3: over the functions of the tables, each callee found by section and address.
#![tactic(auto)]

ghost use Rattle.std.specs.Prelude.{◌≡◌, ◌<◌, Some, pos};
ghost use Rattle.rules.specs.declared.Table.TheVariants.{Functions};
ghost use Rattle.rules.specs.Answers.{refusal_in};
ghost use Rattle.rules.specs.Lent.{lent_code};
ghost use Rattle.rules.specs.Object as object;
ghost use Rattle.rules.specs.Rows.{whole_rows, summed, function_slots};
ghost use Rattle.rules.specs.Lookups.{Sound, Checked};
ghost use Rattle.rules.specs.Walk as walks;
ghost use Rattle.rules.specs.Walk.{in_source};
ghost use Rattle.walk.specs.Moves.{move_of, in_slots};
ghost use Rattle.source.specs.Moves.{object_in, Slotted, slots_in, called_by};
ghost use Rattle.source.specs.Steps.{arrived_at, frameless_at, walk_refusal, SourceWalked};

use insn::{after, place, slot_at};
use resolve::resolve;
use rows::fields::{function_offset, function_section, function_slots};
use rows::find::find_relocation;
use rules::limits::FUNCTION_SIZE;
use rules::{Names, Place, Refusal, Slot};
use tables::checks::{check_map_step, or_no_root};
use walk::{Ground, Move, Stand, leads_at, run, slot_in};

// What is no row of table 3 has no slots.
pub fn slots_of(functions: &[u8], row: usize) -> u32
    ensures { result ≡ slots_in functions.now row }
{
    if row < functions.len() / FUNCTION_SIZE {
        function_slots(functions, row).0
    } else {
        0
    }
}

// Where a row's slots begin in table 6: of the three sums of merge's part_of the one that a walk needs, at every step.
// A checked table 3 and a row of it stay clauses: the function is public and called with any bytes that a caller holds.
pub fn first_slot(functions: &[u8], row: usize) -> Slot
    requires { Sound Functions functions.now × (row < whole_rows Functions functions.now) }
    ensures { result.0 ≡ summed (function_slots functions.now) 0 row }
{
    let mut first: u32 = 0;
    for k in 0..row {
        let slots = function_slots(functions, k);
        first += slots.0;
    }
    slot_at(first)
}

// The row that a call at this slot enters.
// (Row, first and slot as resolve has them, here and in move_at.)
pub fn callee(
    names: Names,
    instructions: &[u8],
    row: usize,
    first: Slot,
    slot: Slot,
) -> Option<usize>
    requires { Slotted (lent_code names instructions.now) row first.0 slot.0 }
    ensures { result ≡ called_by (object.meaning (object_in (lent_code names.entry instructions.now)) row slot.0) }
{
    let at = place(function_offset(names.functions, row), slot);
    let rel = find_relocation(
        names.relocations,
        function_section(names.functions, row),
        at,
    );
    match resolve(names, instructions, row, first, slot, rel) {
        Ok(Some(to)) if !to.reference => Some(to.callee),
        _ => None,
    }
}

// The functions of checked tables.
#[derive(Clone, Copy)]
pub struct SourceGround<'a> {
    pub names: Names<'a>,
    pub instructions: &'a [u8],
    ghost source: { Checked (lent_code names instructions.now) },
}

impl SourceGround<'_> {
    // At a slot of a row whose slots begin at `first` in table 6: a jump stays in its function.
    pub fn move_at(&self, row: usize, first: Slot, slot: Slot) -> Move<Place>
        requires { Slotted (lent_code self.now.names self.now.instructions.now) row first.0 slot.0 }
        ensures { move_of (Some result)
            ≡ in_source (object_in (lent_code self.now.names self.now.instructions.now)) (walks.place row (pos slot.0)) }
    {
        match leads_at(self.instructions, after(first, slot), slot) {
            Move::Goes(next) => Move::Goes(Place { row, slot: next }),
            Move::Chooses(on_yes, on_no) => {
                Move::Chooses(Place { row, slot: on_yes }, Place { row, slot: on_no })
            }
            Move::Enters(_, back) => {
                match callee(self.names, self.instructions, row, first, slot) {
                    Some(to) => Move::Enters(Place { row: to, slot: 0 }, Place { row, slot: back }),
                    None => Move::Stuck,
                }
            }
            Move::Returns => Move::Returns,
            Move::Stuck => Move::Stuck,
        }
    }
}

impl Ground for SourceGround<'_> {
    type Place = Place;

    ghost sight = { λ s. in_source (object_in (lent_code s.names s.instructions.now)) };

    ghost blank = { walks.place 0 (pos 0) };

    fn look(&self, at: Place) -> Option<Move<Place>> {
        let Place { row, slot } = at;
        let slot = slot_at(slot_in(slot, slots_of(self.names.functions, row))? as u32);
        Some(self.move_at(row, first_slot(self.names.functions, row), slot))
    }

    fn has(&self, at: Place) -> bool {
        slot_in(at.slot, slots_of(self.names.functions, at.row)).is_some()
    }
}

// The functions of any table 3, of which no more is known than how many slots each has: a walk arrives at one and goes no further.
#[derive(Clone, Copy)]
pub struct RowSlots<'a> {
    pub functions: &'a [u8],
}

impl Ground for RowSlots<'_> {
    type Place = Place;

    ghost sight = { λ s at. in_slots (slots_in s.functions.now at.row) at.slot };

    ghost blank = { walks.place 0 (pos 0) };

    fn look(&self, at: Place) -> Option<Move<Place>> {
        self.has(at).then_some(Move::Stuck)
    }

    fn has(&self, at: Place) -> bool {
        slot_in(at.slot, slots_of(self.functions, at.row)).is_some()
    }
}

// In any table 3, at any place.
pub fn arrive(functions: &[u8], row: usize, at: i64, depth: usize, taken: usize) -> Stand<Place>
    ensures { result ≡ arrived_at (slots_in functions.now row) row at depth taken }
{
    let at = Place { row, slot: at };
    walk::arrive(&RowSlots { functions }, at, depth, taken)
}

// A call of that row for which there is no frame.
pub fn frameless(functions: &[u8], row: usize) -> Stand<Place>
    ensures { result ≡ frameless_at (slots_in functions.now row) }
{
    walk::frameless(&RowSlots { functions }, Place { row, slot: 0 })
}

// What the link refuses of these tables: 1, 2 and 13.
pub fn check_source(names: Names, instructions: &[u8], root: u32) -> Result<(), Refusal>
    ensures { refusal_in result ≡ walk_refusal (lent_code names.entry instructions.now) root }
{
    check_map_step(names, &[], instructions)?;
    or_no_root(names.functions, root)
}

// The walk of the tables' functions, from the root's first slot, at most `limit` steps. Any bytes may be offered.
pub fn walk_source(
    names: Names,
    instructions: &[u8],
    root: u32,
    frames: &mut [Place],
    answers: &[u8],
    limit: usize,
) -> Result<Stand<Place>, Refusal>
    ensures { SourceWalked (lent_code names.entry instructions.now) root frames.old frames.new answers.now limit result }
{
    check_source(names, instructions, root)?;
    let ground = SourceGround {
        names,
        instructions,
    };
    let first = Place {
        row: root as usize,
        slot: 0,
    };
    Ok(run(&ground, frames, answers, first, limit))
}
