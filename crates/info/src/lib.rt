// Readers of .BTF.ext data: function and line records as rows, and record k as a part of the caller's bytes.
#![tactic(auto)]

ghost use Rattle.std.specs.Prelude.{◌≡◌, ◌+◌, ◌*◌, ◌/◌, ◌%◌, ◌≤◌, ◌<◌, ◌^◌, eqb, length};
ghost use Rattle.rules.specs.Bytes.{little, u32_at, padded};
ghost use Rattle.rules.specs.Answers.{reply_of};
ghost use Rattle.rules.specs.Rows.{row_size};
ghost use Rattle.rules.specs.Readers.{on_grid, is_whole, rows_of_records, has_record, record_reply};
ghost use Rattle.info.specs.Promises.{table_of, table_in, info_in, ReadAs, Ready, GivenBack};

use answers::refusal;
use insn::{is_on_grid, offset_at, to_slot};
use rules::limits::{FUNC_INFO_SIZE, LINE_INFO_SIZE};
use rules::{ByteOffset, Cause, Places, Refusal, Table};
use wire::{copy, put_u32, u32_at, wipe};

// The two structs that records are (kernel page on BTF, 4.2 .BTF.ext section).
#[derive(Clone, Copy, PartialEq, Eq)]
pub enum RecordKind {
    // struct bpf_func_info { insn_off, type_id }: rows of slot and type
    Functions,
    // struct bpf_line_info { insn_off, file_name_off, line_off, line_col }: rows of slot, file, line and column
    Lines,
}

impl RecordKind {
    // Whose rows the records become.
    fn table(self) -> Table
        ensures { result ≡ table_of self }
    {
        match self {
            RecordKind::Functions => Table::FuncInfo,
            RecordKind::Lines => Table::LineInfo,
        }
    }

    fn row_size(self) -> usize
        ensures { (result ≡ row_size (table_of self)) × ((4 ≤ result) × (result ≤ 32)) }
    {
        self.table().row_size()
    }
}

// "Slot = byte offset / 8": the byte offset with which a record begins.
// The four bytes are a clause of three private readers: a type for a record's head would be built once for each.
fn offset_in(bytes: &[u8]) -> ByteOffset
    requires { 4 ≤ length bytes.now }
    ensures { (result.0 ≡ u32_at little bytes.now 0) × (result.0 < 2 ^ 32) }
{
    offset_at(u64::from(u32_at(bytes, 0)))
}

fn begins_on_slot(bytes: &[u8]) -> bool
    requires { 4 ≤ length bytes.now }
    ensures { result ≡ eqb (u32_at little bytes.now 0 % 8) 0 }
{
    is_on_grid(offset_in(bytes))
}

fn slot_in(bytes: &[u8]) -> u32
    requires { 4 ≤ length bytes.now }
    ensures { result ≡ u32_at little bytes.now 0 / 8 }
{
    to_slot(offset_in(bytes)).0
}

// Records in the caller's bytes, as a reader is given them.
#[derive(Clone, Copy)]
pub struct Records<'a> {
    pub kind: RecordKind,
    pub size: u32,
    pub count: u32,
    pub bytes: &'a [u8],
}

impl<'a> Records<'a> {
    fn begins_at(self, k: usize) -> bool
        requires { self.size * k + 4 ≤ length self.bytes.now }
        ensures { result ≡ eqb (u32_at little self.entry.bytes.now (self.entry.size * k) % 8) 0 }
    {
        begins_on_slot(&self.bytes[self.size as usize * k..])
    }

    // By record numbers: chunks of a size that is not known cost an instruction more for each record.
    fn begin_on_slots(self) -> bool
        requires { (4 ≤ self.size) × (self.count * self.size ≡ length self.bytes.now) }
        ensures { result ≡ on_grid little (info_in self.entry) 0 self.entry.count }
    {
        (0..self.count as usize).all(|k| self.begins_at(k))
    }

    // No 14: a u32 times a u32 is a u64.
    fn is_whole(self) -> bool
        ensures { result ≡ is_whole little (table_in self.entry) (info_in self.entry) }
    {
        let size = self.size as usize;
        size >= self.kind.row_size()
            && self.count as usize * size == self.bytes.len()
            && self.begin_on_slots()
    }

    fn has_record(self, k: u32) -> bool
        ensures { result ≡ has_record little (table_in self.entry) (info_in self.entry) k }
    {
        self.is_whole() && k < self.count
    }

    // Row k is written after the rows before it; the tail of a record that is longer than a row is passed over.
    fn put_rows_of(self, row: usize, out: &mut [u8])
        requires ready { Ready (row_size (table_in self)) self.size self.count self.bytes.now out.old }
        requires sized { row ≡ row_size (table_in self) }
        ensures { out.new ≡ padded (length out.old) (rows_of_records little (table_in self.entry) (info_in self.entry) 0 self.entry.count) }
    {
        // No zip with chunks_exact_mut: a proof loses what is written through it.
        for (k, record) in self.bytes.chunks_exact(self.size as usize).enumerate() {
            put_u32(out, row * k, slot_in(record));
            copy(out, row * k + 4, record, 4, row - 4);
        }
    }

    // By the kind, so that a row's size is a constant where its bytes are copied.
    fn put_rows(self, out: &mut [u8])
        requires { Ready (row_size (table_in self)) self.size self.count self.bytes.now out.old }
        ensures { out.new ≡ padded (length out.old) (rows_of_records little (table_in self.entry) (info_in self.entry) 0 self.entry.count) }
    {
        match self.kind {
            RecordKind::Functions => self.put_rows_of(FUNC_INFO_SIZE, out),
            RecordKind::Lines => self.put_rows_of(LINE_INFO_SIZE, out),
        }
    }

    // All of them as rows of their table.
    pub fn read(self, out: &mut [u8]) -> Result<Places, Refusal>
        ensures { ReadAs (table_in self.entry) (info_in self.entry) out.old out.new result }
    {
        wipe(out);
        if !self.is_whole() {
            return Err(refusal(Cause::BrokenInfo, 0, 0));
        }
        let row = self.kind.row_size();
        if out.len() < self.count as usize * row {
            return Err(refusal(Cause::NoRoom, 0, 0));
        }
        self.put_rows(out);
        Ok(Places(self.count, 0, 0))
    }

    // Record k, its tail included; empty where the data is refused or has no record k.
    // No Option: a reader of a part can't fail (`GivenBack`), and `record_number` says which it is.
    pub fn record(self, k: u32) -> &'a [u8]
        ensures { GivenBack (table_in self.entry) (info_in self.entry) k self.entry.bytes result }
    {
        if !self.has_record(k) {
            return &self.bytes[0..0];
        }
        let size = self.size as usize;
        let at = size * (k as usize);
        &self.bytes[at..at + size]
    }

    // The number of what `record` gives.
    pub fn record_number(self, k: u32) -> Result<Places, Refusal>
        ensures { reply_of result ≡ record_reply little (table_in self.entry) (info_in self.entry) k }
    {
        if !self.has_record(k) {
            return Err(refusal(Cause::BrokenInfo, 0, 0));
        }
        Ok(Places(self.count, 0, 0))
    }
}
