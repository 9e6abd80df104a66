// Instruction slots: where they are, where they lead, and their fields, read and stored in place.
#![tactic(auto)]

ghost use Rattle.std.specs.Prelude.{◌≡◌, ◌+◌, ◌*◌, ◌%◌, ◌≤◌, ◌<◌, ◌^◌, eqb, pos, ◌+ℤ◌, length};
ghost use Rattle.rules.specs.Bytes.{little, slot_in, slot_size, immediate_stored, source_stored};
ghost use Rattle.rules.specs.Object.{is_call, is_blank};
ghost use Rattle.rules.specs.Object as object;
ghost use Rattle.insn.specs.Slots.{offset_of, slot_of};
ghost use Rattle.rules.specs.Tables.{slots_on};
ghost use Rattle.insn.specs.Wide.{wide_load_in};

use rules::{ByteOffset, Slot};
use wire::{i16_at, i32_at, put_i32, u32_at};

pub mod kinds; // kinds.rt: what each opcode does to the walk

// By name, one for each kind of number: document 01 asks for named conversions.
pub fn slot_at(n: u32) -> Slot
    ensures { result.0 ≡ n }
{
    Slot(n)
}

pub fn offset_at(n: u64) -> ByteOffset
    ensures { result.0 ≡ n }
{
    ByteOffset(n)
}

// Conversions are functions with names, and no From: document 01 asks for that.
pub fn to_offset(s: Slot) -> ByteOffset
    ensures { (result.0 ≡ offset_of s.0) × (result.0 < 2 ^ 35) }
{
    ByteOffset(8 * u64::from(s.0))
}

// The slot in which an offset lies; rounded down.
pub fn to_slot(o: ByteOffset) -> Slot
    requires { o.0 < 2 ^ 35 }
    ensures { result.0 ≡ slot_of o.0 }
{
    Slot((o.0 / 8) as u32)
}

// Where a slot begins.
pub fn is_on_grid(o: ByteOffset) -> bool
    ensures { result ≡ eqb (o.0 % slot_size) 0 }
{
    o.0 % 8 == 0
}

// The section's byte offset of a slot of a function that starts at `base`.
// Below 2^48 is a clause here and of `byte_target` and `value`: document 01 fixes the two kinds of number, and asks no third of callers.
pub fn place(base: ByteOffset, s: Slot) -> ByteOffset
    requires { base.0 < 2 ^ 48 }
    ensures { (result.0 ≡ base.0 + offset_of s.0) × (result.0 < 2 ^ 49) }
{
    ByteOffset(base.0 + to_offset(s).0)
}

// A slot counted from a first one.
pub fn after(first: Slot, s: Slot) -> Slot
    requires { first.0 + s.0 < 2 ^ 32 }
    ensures { result.0 ≡ first.0 + s.0 }
{
    Slot(first.0 + s.0)
}

pub fn next(s: Slot) -> Slot
    requires { s.0 + 1 < 2 ^ 32 }
    ensures { result.0 ≡ s.0 + 1 }
{
    Slot(s.0 + 1)
}

// This sum and the next two are each as its definition has it, a line each: one function over the factor or the order would be no plainer.
// From the place of a slot, or from an address: exact at 64 bits for every immediate.
pub fn call_target(base: ByteOffset, imm: i32) -> i64
    requires { base.0 < 2 ^ 49 }
    ensures { result ≡ pos base.0 +ℤ slots_on imm }
{
    base.0 as i64 + 8 * (i64::from(imm) + 1)
}

pub fn byte_target(base: ByteOffset, imm: i32) -> i64
    requires { base.0 < 2 ^ 48 }
    ensures { result ≡ pos base.0 +ℤ imm }
{
    base.0 as i64 + i64::from(imm)
}

pub fn value(imm: i32, address: ByteOffset) -> i64
    requires { address.0 < 2 ^ 48 }
    ensures { result ≡ imm +ℤ pos address.0 }
{
    i64::from(imm) + address.0 as i64
}

// Exact at 64 bits, whatever the two slots.
pub fn displacement(start: Slot, here: Slot) -> i64
    ensures { result ≡ object.displacement start.0 here.0 }
{
    i64::from(start.0) - i64::from(here.0) - 1
}

// The place of a slot's first byte in a table of slots.
pub fn start_of(slot: Slot) -> usize
    ensures { (result ≡ slot_size * slot.0) × (result < 2 ^ 35) }
{
    8 * slot.0 as usize
}

// From here on bytes and slot are lent side by side, with one fact of both: docs/CLAIMS.md names most of these functions, so a type with an invariant
// may not ask it in their place.
// A reader for each field by its name, one expression each: they differ in place, width and half of a byte, so one over these would be no plainer.
pub fn opcode(code: &[u8], slot: Slot) -> u8
    requires { slot_size * slot.0 + slot_size ≤ length code.now }
    ensures { result ≡ (slot_in little code.now slot.0).opcode }
{
    code[start_of(slot)]
}

pub fn destination(code: &[u8], slot: Slot) -> u8
    requires { slot_size * slot.0 + slot_size ≤ length code.now }
    ensures { result ≡ (slot_in little code.now slot.0).destination }
{
    code[start_of(slot) + 1] % 16
}

pub fn source(code: &[u8], slot: Slot) -> u8
    requires { slot_size * slot.0 + slot_size ≤ length code.now }
    ensures { result ≡ (slot_in little code.now slot.0).source }
{
    code[start_of(slot) + 1] / 16
}

pub fn offset(code: &[u8], slot: Slot) -> i16
    requires { slot_size * slot.0 + slot_size ≤ length code.now }
    ensures { result ≡ (slot_in little code.now slot.0).offset }
{
    i16_at(code, start_of(slot) + 2)
}

pub fn immediate(code: &[u8], slot: Slot) -> i32
    requires { slot_size * slot.0 + slot_size ≤ length code.now }
    ensures { result ≡ (slot_in little code.now slot.0).immediate }
{
    i32_at(code, start_of(slot) + 4)
}

// Opcode 85 hex, register byte 10 hex, offset 0: one word. The next tests it for 0: a function over the word would be no plainer.
pub fn insn_is_call(code: &[u8], slot: Slot) -> bool
    requires { slot_size * slot.0 + slot_size ≤ length code.now }
    ensures { result ≡ is_call (slot_in little code.now slot.0) }
{
    u32_at(code, start_of(slot)) == 0x1085
}

pub fn is_blank(code: &[u8], slot: Slot) -> bool
    requires { slot_size * slot.0 + slot_size ≤ length code.now }
    ensures { result ≡ is_blank (slot_in little code.now slot.0) }
{
    u32_at(code, start_of(slot)) == 0
}

pub fn is_wide_load(code: &[u8], slot: Slot, end: Slot) -> bool
    requires { (slot.0 < end.0) × (slot_size * end.0 ≤ length code.now) }
    ensures { result ≡ wide_load_in code.now slot.0 end.0 }
{
    let second = next(slot);
    opcode(code, slot) == 0x18 && second < end && is_blank(code, second)
}

pub fn set_immediate(code: &mut [u8], slot: Slot, imm: i32)
    requires { slot_size * slot.0 + slot_size ≤ length code.old }
    ensures { code.new ≡ immediate_stored little code.old slot.0 imm }
{
    put_i32(code, start_of(slot) + 4, imm);
}

pub fn set_source(code: &mut [u8], slot: Slot, r: u8)
    requires { (slot_size * slot.0 + slot_size ≤ length code.old) × (r < 16) }
    ensures { code.new ≡ source_stored little r code.old slot.0 }
{
    let at = start_of(slot) + 1;
    code[at] = code[at] % 16 + 16 * r;
}
