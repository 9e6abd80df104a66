// The link step (the crate's FunctionLinker): the root first, then each callee where it is first met, depth first.
#![tactic(auto)]

ghost use Rattle.std.specs.Prelude.{◌≡◌, ◌+◌, ◌*◌, ◌≤◌, ◌<◌, length};
ghost use Rattle.rules.specs.Bytes.{little, slot_size};
ghost use Rattle.rules.specs.Lent.{lent, buffers, lent_image, lent_by};
ghost use Rattle.rules.specs.Rows.{most_image_slots};
ghost use Rattle.rules.specs.Entries.{link_entry, link_pieces_entry};
ghost use Rattle.merge.specs.Merge.{SameOutputs};
ghost use Rattle.linker.specs.Linker.{Adds, Added, Asks, Placed, Visits, Visited, pointed_to, Starts, Ended, Wiped, Outcomes, StartedOutcomes, ListedOutcomes};

use answers::refusal;
use insn::{after, displacement, place, set_immediate, set_source, slot_at};
use merge::{Used, begin, extend, has_room, part_of, stray_line};
use pieces::order::put_list;
use resolve::resolve;
use rows::fields::{function_offset, function_section, function_slots};
use rows::find::{is_relocation, is_relocation_before, relocations_before};
use rules::limits::{FUNCTION_SIZE, MOST_FUNCTIONS, PIECE_SIZE, RELOCATION_SIZE};
use rules::{Cause, Image, Names, Places, Program, Refusal, Slot};
use tables::checks::check_link;
use wire::wipe;

// Where each function of table 3 starts in the image, 0 if it is not placed: the root has a slot, so no callee starts at 0. An array by
// value in fixed memory, the form that document 01 names.
#[derive(Clone, Copy)]
pub struct State {
    pub starts: [u16; MOST_FUNCTIONS],
    pub used: Used,
}

// A call, or a reference, to the function that starts there: the flag is `pointed_to`'s.
// Room for the slot is a clause, as insn's readers have it.
fn point(image: &mut [u8], here: Slot, start: Slot, reference: bool)
    requires { (slot_size * here.0 + slot_size ≤ length image.old)
        × ((start.0 < most_image_slots) × (here.0 < most_image_slots)) }
    ensures { image.new ≡ pointed_to reference image.old here.0 start.0 }
{
    let to = displacement(start, here) as i32;
    if reference {
        set_source(image, here, 4);
    }
    set_immediate(image, here, to);
}

// Appends a function that is not placed, places it, and visits its slots.
#[cycle(link_function_placed_relocate)]
fn link_function(
    names: Names,
    program: Program,
    image: &mut Image,
    st: State,
    row: usize,
) -> Result<State, Refusal>
    requires { Adds (lent names program) st (lent_image image.old) row }
    ensures added { Added (lent names.entry program.entry) st (lent_image image.old) row result (lent_image image.new) }
    ensures same { SameOutputs image.old image.new }
{
    if !has_room(
        names.functions,
        image.slots.len(),
        image.func_info.len(),
        image.line_info.len(),
        st.used,
        row,
    ) {
        return Err(refusal(Cause::NoRoom, row as u32, 0));
    }
    let part = part_of(names.functions, row);
    if let Some(k) = stray_line(names.functions, program.line_info, row, part.lines) {
        return Err(refusal(Cause::LineOutside, row as u32, k as u32));
    }
    let start = st.used.slots;
    let mut next = st;
    next.starts[row] = start as u16;
    next.used = extend(names.functions, program, image, st.used, row, part);
    relocate(
        names,
        program,
        image,
        next,
        row,
        slot_at(start),
        slot_at(part.slots),
    )
}

// The callee has a start afterwards, if nothing is refused.
#[cycle(link_function_placed_relocate)]
fn placed(
    names: Names,
    program: Program,
    image: &mut Image,
    st: State,
    callee: usize,
) -> Result<State, Refusal>
    requires { Asks (lent names program) st (lent_image image.old) callee }
    ensures placed { Placed (lent names.entry program.entry) st (lent_image image.old) callee result (lent_image image.new) }
    ensures same { SameOutputs image.old image.new }
{
    if st.starts[callee] == 0 {
        return link_function(names, program, image, st, callee);
    }
    Ok(st)
}

// Visits the slots of a function that starts there; its first slot in table 6 is `first`.
// Row, start and first slot are three numbers of the visit, read once each.
#[cycle(link_function_placed_relocate)]
fn relocate(
    names: Names,
    program: Program,
    image: &mut Image,
    st: State,
    row: usize,
    start: Slot,
    first: Slot,
) -> Result<State, Refusal>
    requires { Visits (lent names program) st (lent_image image.old) row start.0 first.0 }
    ensures visited { Visited (lent names.entry program.entry) st (lent_image image.old) row start.0 result (lent_image image.new) }
    ensures same { SameOutputs image.old image.new }
{
    let slots = function_slots(names.functions, row);
    let home = function_section(names.functions, row);
    let offset = function_offset(names.functions, row);
    let n = names.relocations.len() / RELOCATION_SIZE;
    let mut cur = relocations_before(names.relocations, home, offset);
    let mut now = st;
    let mut slot = 0;
    // Not a `for`, which reads its end once: that the length has grown is an error that this test could make (error_grown_length).
    while slot < slots.0 {
        let here = slot_at(slot);
        let at = place(offset, here);
        // nested in the visit and yielded by break, with a cursor that stays: the form that document 01 names
        let rel = loop {
            if cur == n {
                break None;
            }
            if is_relocation(names.relocations, cur, home, at) {
                break Some(cur);
            }
            if !is_relocation_before(names.relocations, cur, home, at) {
                break None;
            }
            cur += 1;
        };
        let meaning = resolve(names, program.instructions, row, first, here, rel)?;
        if let Some(to) = meaning {
            now = placed(names, program, image, now, to.callee)?;
            let there = slot_at(now.starts[to.callee] as u32);
            point(image.slots, after(start, here), there, to.reference);
        }
        slot += 1;
    }
    Ok(now)
}

// What a link gives: how much it placed, and where each function of table 3 starts (0 for none).
#[derive(Clone, Copy)]
pub struct Linked {
    pub places: Places,
    pub starts: [u16; MOST_FUNCTIONS],
}

// Over checked tables, into outputs that are zero. A refusal leaves them to be wiped. The outputs come as slices and not as an Image: that
// what they hold are bytes is known of a slice that is lent, and not of one in a struct.
// Not link_function: the lines of the root are not looked at, its records stay as they stand, and its start, 0, is not kept.
fn link_checked(
    names: Names,
    program: Program,
    slots: &mut [u8],
    func_info: &mut [u8],
    line_info: &mut [u8],
    root: u32,
) -> Result<Linked, Refusal>
    requires { Starts (lent names program) root (buffers slots.old func_info.old line_info.old) }
    ensures { Ended
        (lent names.entry program.entry)
        root
        (buffers slots.old func_info.old line_info.old)
        (buffers slots.new func_info.new line_info.new)
        result }
{
    let row = root as usize;
    let mut image = Image {
        slots,
        func_info,
        line_info,
    };
    if !has_room(
        names.functions,
        image.slots.len(),
        image.func_info.len(),
        image.line_info.len(),
        Used::default(),
        row,
    ) {
        return Err(refusal(Cause::NoRoom, root, 0));
    }
    let part = part_of(names.functions, row);
    let used = begin(names.functions, program, &mut image, row, part);
    let starts = [0; MOST_FUNCTIONS];
    let st = State { starts, used };
    let end = relocate(
        names,
        program,
        &mut image,
        st,
        row,
        slot_at(0),
        slot_at(part.slots),
    )?;
    let used = end.used;
    let starts = end.starts;
    let places = Places(used.slots, used.funcs, used.lines);
    Ok(Linked { places, starts })
}

fn wipe_all(image: &mut Image)
    ensures wiped { Wiped (lent_image image.old) (lent_image image.new) }
    ensures same { SameOutputs image.old image.new }
{
    wipe(image.slots);
    wipe(image.func_info);
    wipe(image.line_info);
}

// The link, and where it placed each function.
fn link_starts(
    names: Names,
    program: Program,
    image: &mut Image,
    root: u32,
) -> Result<Linked, Refusal>
    ensures outcomes { StartedOutcomes (lent names.entry program.entry) root (lent_by (lent_image image.old)) (lent_image image.new) result }
    ensures same { SameOutputs image.old image.new }
{
    wipe_all(image);
    check_link(names, program, root)?;
    let linked = link_checked(
        names,
        program,
        image.slots,
        image.func_info,
        image.line_info,
        root,
    );
    match linked {
        Ok(linked) => Ok(linked),
        Err(why) => {
            wipe_all(image); // what the step wrote
            Err(why)
        }
    }
}

// Links the function at the row root of table 3. A refused link leaves its three outputs all zero; an accepted one has zero after the used bytes.
pub fn link(names: Names, program: Program, image: &mut Image, root: u32) -> Result<Places, Refusal>
    ensures outcomes { Outcomes
        (lent_image image.new)
        result
        (link_entry little (lent names.entry program.entry) root (lent_by (lent_image image.old))) }
    ensures same { SameOutputs image.old image.new }
{
    let linked = link_starts(names, program, image, root)?;
    Ok(linked.places)
}

// What a link with its list gives: how much it placed, and how many pieces the list has.
// A count and no slice: the list is lent by the caller, who has it back.
#[derive(Clone, Copy)]
pub struct Listed {
    pub places: Places,
    pub count: usize,
}

// The link with its list of pieces, in order of placing, zero after it. Room for fewer than one more than table 3 has rows is refused
// before everything else.
pub fn link_pieces(
    names: Names,
    program: Program,
    image: &mut Image,
    pieces: &mut [u8],
    root: u32,
) -> Result<Listed, Refusal>
    ensures outcomes { ListedOutcomes
        (lent_image image.new)
        pieces.new
        result
        (link_pieces_entry
        little
        (lent names.entry program.entry)
        root
        (lent_by (lent_image image.old))
        (length pieces.old)) }
    ensures same { SameOutputs image.old image.new }
{
    wipe(pieces);
    let rows = names.functions.len() / FUNCTION_SIZE;
    if pieces.len() < PIECE_SIZE * (rows + 1) {
        wipe_all(image);
        return Err(refusal(Cause::NoListRoom, 0, 0));
    }
    let linked = link_starts(names, program, image, root)?;
    let places = linked.places;
    let count = put_list(names.functions, &linked.starts, root, places.0, pieces);
    Ok(Listed { places, count })
}
