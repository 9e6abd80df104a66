// The two walks of demand 3: a walk's steps over any ground, and the image's walk.
#![tactic(auto)]

ghost use Rattle.std.specs.Prelude.{◌≡◌, ◌+◌, ◌*◌, ◌≤◌, Option, Some, pos, ◌+ℤ◌, length};
ghost use Rattle.rules.specs.Bytes.{little, slot_in, slot_size};
ghost use Rattle.rules.specs.Lookups.{found_of};
ghost use Rattle.rules.specs.Tables.{is_some};
ghost use Rattle.std.proofs.Math.Option as math;
ghost use Rattle.rules.specs.Walk as walks;
ghost use Rattle.rules.specs.Walk.{in_image, within};
ghost use Rattle.walk.specs.Moves.{move_of, Ground, image_in, leads_in, in_slots};
ghost use Rattle.walk.specs.Steps.{arrived_at, frameless_at, arrived_in, frameless_in, Fitting, SteppedOver, RanOver, ImageWalked};

use insn::kinds::kind;
use insn::{immediate, insn_is_call, offset, opcode, slot_at};
use rules::limits::{INSTRUCTION_SIZE, MOST_IMAGE_SLOTS};
use rules::{Kind, Slot};

// Where a slot leads; places outside are places too.
#[derive(Clone, Copy)]
pub enum Move<P> {
    Goes(P),
    // on yes, on no
    Chooses(P, P),
    // the callee's first slot, the slot to return to
    Enters(P, P),
    Returns,
    Stuck,
}

// Where a walk stands: the place, how many frames and how many answers are used.
#[derive(Clone, Copy)]
pub struct Here<P> {
    pub at: P,
    pub depth: usize,
    pub taken: usize,
}

// A walk's state.
#[derive(Clone, Copy)]
pub enum Stand<P> {
    Standing(Here<P>),
    // with so many frames used
    Stopped(P, usize),
    Ended(P),
    Left,
    // a call found no frame left
    NoFrame,
}

// What a walk goes over.
pub trait Ground {
    type Place: Copy;

    // what one sees at a place
    ghost sight: { Self → Self.Place → math.Option (walks.Move Self.Place) };

    // what the frames would hold past their end
    ghost blank: { Self.Place };

    // Where the slot at a place leads; nothing outside.
    fn look(&self, at: Self::Place) -> Option<Move<Self::Place>>
        ensures { move_of result ≡ sight self.now at };

    // Is a slot there?
    fn has(&self, at: Self::Place) -> bool
        ensures { result ≡ is_some (sight self.now at) };
}

// The parts of the Here that it gives: of each call another has changed, so a Here made first would be no plainer.
pub fn arrive<G: Ground>(ground: &G, at: G::Place, depth: usize, taken: usize) -> Stand<G::Place>
    ensures { result ≡ arrived_at (G.sight ground.now) at depth taken }
{
    if ground.has(at) {
        Stand::Standing(Here { at, depth, taken })
    } else {
        Stand::Left
    }
}

// A call for which there is no frame: it may lead outside.
pub fn frameless<G: Ground>(ground: &G, first: G::Place) -> Stand<G::Place>
    ensures { result ≡ frameless_at (G.sight ground.now) first }
{
    if ground.has(first) {
        Stand::NoFrame
    } else {
        Stand::Left
    }
}

// Frames and answers are the caller's own buffers, one written and one read: a struct of them would be made for the entries alone.
pub fn step<G: Ground>(
    ground: &G,
    frames: &mut [G::Place],
    answers: &[u8],
    here: Here<G::Place>,
) -> Stand<G::Place>
    requires { Fitting frames.old answers.now here }
    ensures { SteppedOver (G.sight ground.now) G.blank frames.old frames.new answers.now here result }
{
    let Here { at, depth, taken } = here;
    let Some(found) = ground.look(at) else {
        return Stand::Left;
    };
    match found {
        Move::Goes(next) => arrive(ground, next, depth, taken),
        Move::Chooses(on_yes, on_no) => {
            if taken >= answers.len() {
                return Stand::Stopped(at, depth);
            }
            // an answer is a byte that is lent: 1 is yes, as the definition has it
            let next = if answers[taken] == 1 { on_yes } else { on_no };
            arrive(ground, next, depth, taken + 1)
        }
        Move::Enters(first, back) => {
            if depth >= frames.len() {
                return frameless(ground, first);
            }
            frames[depth] = back;
            arrive(ground, first, depth + 1, taken)
        }
        Move::Returns => {
            if depth == 0 {
                return Stand::Ended(at);
            }
            let top = depth - 1;
            arrive(ground, frames[top], top, taken)
        }
        Move::Stuck => Stand::Stopped(at, depth),
    }
}

// At most `limit` steps from a place.
pub fn run<G: Ground>(
    ground: &G,
    frames: &mut [G::Place],
    answers: &[u8],
    first: G::Place,
    limit: usize,
) -> Stand<G::Place>
    ensures { RanOver (G.sight ground.now) G.blank frames.old frames.new answers.now first limit result }
{
    if !ground.has(first) {
        return Stand::Left;
    }
    let mut here = Here {
        at: first,
        depth: 0,
        taken: 0,
    };
    for _ in 0..limit {
        let next = step(ground, frames, answers, here);
        let Stand::Standing(there) = next else {
            return next;
        };
        here = there;
    }
    Stand::Standing(here)
}

// Exact at 64 bits for every slot and immediate.
pub fn ahead(slot: Slot, by: u32, d: i32) -> i64
    ensures { result ≡ pos slot.0 +ℤ (pos by +ℤ d) }
{
    i64::from(slot.0) + i64::from(by) + i64::from(d)
}

// The offset, widened to an immediate's size.
// Code and slot side by side, with room for the slot as a clause, as insn's readers have them.
pub fn jump(code: &[u8], here: Slot) -> i32
    requires { slot_size * here.0 + slot_size ≤ length code.now }
    ensures { result ≡ (slot_in little code.now here.0).offset }
{
    i32::from(offset(code, here))
}

// The slot at a place, of a run of so many.
pub fn slot_in(at: i64, slots: u32) -> Option<usize>
    ensures { result ≡ found_of (within slots (λ n. n) at) }
{
    let slot = usize::try_from(at).ok()?;
    (slot < slots as usize).then_some(slot)
}

// The slot that lies at `here` of some code, as slot `slot` of its function or image; a call as an image has it.
// Room for the slot is a clause, as insn's readers have it.
pub fn leads_at(code: &[u8], here: Slot, slot: Slot) -> Move<i64>
    requires { slot_size * here.0 + slot_size ≤ length code.now }
    ensures { move_of (Some result) ≡ leads_in (slot_in little code.now here.0) slot.0 }
{
    match kind(opcode(code, here)) {
        Kind::Plain => Move::Goes(ahead(slot, 1, 0)),
        Kind::WideLoad => Move::Goes(ahead(slot, 2, 0)),
        Kind::JumpByOffset => Move::Goes(ahead(slot, 1, jump(code, here))),
        Kind::JumpByImmediate => Move::Goes(ahead(slot, 1, immediate(code, here))),
        Kind::Conditional => {
            let on_yes = ahead(slot, 1, jump(code, here));
            let on_no = ahead(slot, 1, 0);
            Move::Chooses(on_yes, on_no)
        }
        Kind::CallByte => {
            if insn_is_call(code, here) {
                let first = ahead(slot, 1, immediate(code, here));
                Move::Enters(first, ahead(slot, 1, 0))
            } else {
                Move::Goes(ahead(slot, 1, 0))
            }
        }
        Kind::Exit => Move::Returns,
        Kind::Unknown => Move::Stuck,
    }
}

// Slots of which no more is known than how many there are: a walk arrives at one and goes no further.
#[derive(Clone, Copy)]
pub struct Slots(pub u32);

impl Ground for Slots {
    type Place = i64;

    ghost sight = { λ s. in_slots s.0 };

    ghost blank = { pos 0 };

    fn look(&self, at: i64) -> Option<Move<i64>> {
        self.has(at).then_some(Move::Stuck)
    }

    fn has(&self, at: i64) -> bool {
        slot_in(at, self.0).is_some()
    }
}

// Any number of slots, and any place.
pub fn arrive_in(slots: u32, at: i64, depth: usize, taken: usize) -> Stand<i64>
    ensures { result ≡ arrived_in slots at depth taken }
{
    arrive(&Slots(slots), at, depth, taken)
}

pub fn frameless_in(slots: u32, first: i64) -> Stand<i64>
    ensures { result ≡ frameless_in slots first }
{
    frameless(&Slots(slots), first)
}

// An image of so many slots at the start of a buffer.
#[derive(Clone, Copy)]
pub struct ImageGround<'a> {
    pub image: &'a [u8],
    pub slots: u32,
    ghost ground: { Ground image.now slots },
}

impl Ground for ImageGround<'_> {
    type Place = i64;

    ghost sight = { λ p. in_image (image_in p.image.now p.slots) };

    ghost blank = { pos 0 };

    fn look(&self, at: i64) -> Option<Move<i64>> {
        let slot = slot_at(slot_in(at, self.slots)? as u32);
        Some(leads_at(self.image, slot, slot))
    }

    fn has(&self, at: i64) -> bool {
        slot_in(at, self.slots).is_some()
    }
}

// More slots than an image may hold.
#[derive(Clone, Copy)]
pub struct TooLong;

// The walk of an image's whole slots, from its first one, at most `limit` steps. Any bytes may be offered.
pub fn walk_image(
    image: &[u8],
    frames: &mut [i64],
    answers: &[u8],
    limit: usize,
) -> Result<Stand<i64>, TooLong>
    ensures { ImageWalked image.now frames.old frames.new answers.now limit result }
{
    let slots = image.len() / INSTRUCTION_SIZE;
    if slots > MOST_IMAGE_SLOTS {
        return Err(TooLong);
    }
    let ground = ImageGround {
        image,
        slots: slots as u32,
    };
    Ok(run(&ground, frames, answers, 0, limit))
}
