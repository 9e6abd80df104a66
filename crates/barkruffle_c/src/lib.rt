// The names that C calls, as include/barkruffle.h declares them: each hands over to the library's entry, under the same contract.
// Twelve functions with slices side by side, since C has no generics, no methods and no slices in a struct.
#![tactic(auto)]

ghost use Rattle.std.specs.Prelude.{length};
ghost use Rattle.rules.specs.declared.Table.TheVariants.{FuncInfo, LineInfo};
ghost use Rattle.rules.specs.Bytes.{little};
ghost use Rattle.rules.specs.Rows.{link_offer, map_step_offer};
ghost use Rattle.rules.specs.Lookups.{symbol_with};
ghost use Rattle.rules.specs.Lent.{buffers, lent_by};
ghost use Rattle.rules.specs.Entries.{link_entry, link_pieces_entry, map_entry};
ghost use Rattle.rules.specs.Examine.{shown, examine_entry};
ghost use Rattle.rules.specs.Readers.{read_records, record_reply};
ghost use Rattle.answers.specs.Told.{Told};
ghost use Rattle.info.specs.Promises.{given};
ghost use Rattle.symbols.specs.Symbols.{bytes_of};
ghost use Rattle.barkruffle.specs.Promises.{LinkTold, ListTold, MapTold, ReadTold, Stands};
ghost use Rattle.barkruffle.specs.LentRows.{RowTold};

use barkruffle::Part;
use info::{RecordKind, Records};
use rules::{Image, Names, Program};
use symbols::Symbol;

// Rewrites table 6 in place, only once nothing is refused.
#[unsafe(no_mangle)]
pub extern "C" fn barkruffle_relocate_maps(
    code: &[u8],
    symbols: &[u8],
    functions: &[u8],
    relocations: &[u8],
    maps: &[u8],
    instructions: &mut [u8],
    places: &mut [u8],
) -> u32
    ensures { MapTold
        places.old
        places.new
        instructions.new
        result
        (map_entry little (map_step_offer code.now symbols.now functions.now relocations.now maps.now instructions.old)) }
{
    let names = Names {
        code,
        symbols,
        functions,
        relocations,
    };
    barkruffle::barkruffle_relocate_maps(names, maps, instructions, places)
}

// Links the function at the row root of table 3.
#[unsafe(no_mangle)]
pub extern "C" fn barkruffle_link(
    code: &[u8],
    symbols: &[u8],
    functions: &[u8],
    relocations: &[u8],
    instructions: &[u8],
    func_info: &[u8],
    line_info: &[u8],
    root: u32,
    image: &mut [u8],
    image_func_info: &mut [u8],
    image_line_info: &mut [u8],
    places: &mut [u8],
) -> u32
    ensures { LinkTold
        places.old
        places.new
        (buffers image.new image_func_info.new image_line_info.new)
        result
        (link_entry
        little
        (link_offer code.now symbols.now functions.now relocations.now instructions.now func_info.now line_info.now)
        root
        (lent_by (buffers image.old image_func_info.old image_line_info.old))) }
{
    let names = Names {
        code,
        symbols,
        functions,
        relocations,
    };
    let program = Program {
        instructions,
        func_info,
        line_info,
    };
    let mut out = Image {
        slots: image,
        func_info: image_func_info,
        line_info: image_line_info,
    };
    barkruffle::barkruffle_link(names, program, root, &mut out, places)
}

// The link with its list of pieces, in order of placing: rows of a function's row and its start.
#[unsafe(no_mangle)]
pub extern "C" fn barkruffle_link_pieces(
    code: &[u8],
    symbols: &[u8],
    functions: &[u8],
    relocations: &[u8],
    instructions: &[u8],
    func_info: &[u8],
    line_info: &[u8],
    root: u32,
    image: &mut [u8],
    image_func_info: &mut [u8],
    image_line_info: &mut [u8],
    pieces: &mut [u8],
    places: &mut [u8],
) -> u32
    ensures { ListTold
        places.old
        places.new
        (buffers image.new image_func_info.new image_line_info.new)
        pieces.new
        result
        (link_pieces_entry
        little
        (link_offer code.now symbols.now functions.now relocations.now instructions.now func_info.now line_info.now)
        root
        (lent_by (buffers image.old image_func_info.old image_line_info.old))
        (length pieces.old)) }
{
    let names = Names {
        code,
        symbols,
        functions,
        relocations,
    };
    let program = Program {
        instructions,
        func_info,
        line_info,
    };
    let mut out = Image {
        slots: image,
        func_info: image_func_info,
        line_info: image_line_info,
    };
    barkruffle::barkruffle_link_pieces(names, program, root, &mut out, pieces, places)
}

// Examines an image from elsewhere, with its records and its list of pieces.
#[unsafe(no_mangle)]
pub extern "C" fn barkruffle_examine(
    code: &[u8],
    symbols: &[u8],
    functions: &[u8],
    relocations: &[u8],
    instructions: &[u8],
    func_info: &[u8],
    line_info: &[u8],
    root: u32,
    image: &[u8],
    image_func_info: &[u8],
    image_line_info: &[u8],
    pieces: &[u8],
    places: &mut [u8],
) -> u32
    ensures { Told
        places.old
        places.new
        result
        (examine_entry
        little
        (link_offer code.now symbols.now functions.now relocations.now instructions.now func_info.now line_info.now)
        root
        (shown image.now image_func_info.now image_line_info.now pieces.now)) }
{
    let names = Names {
        code,
        symbols,
        functions,
        relocations,
    };
    let program = Program {
        instructions,
        func_info,
        line_info,
    };
    let shown = Program {
        instructions: image,
        func_info: image_func_info,
        line_info: image_line_info,
    };
    barkruffle::barkruffle_examine(names, program, root, shown, pieces, places)
}

// The link with table 2 lent as rows. They are laid into a table of its own, and linked from there.
#[unsafe(no_mangle)]
pub extern "C" fn barkruffle_link_rows(
    code: &[u8],
    symbols: &[Symbol],
    functions: &[u8],
    relocations: &[u8],
    instructions: &[u8],
    func_info: &[u8],
    line_info: &[u8],
    root: u32,
    image: &mut [u8],
    image_func_info: &mut [u8],
    image_line_info: &mut [u8],
    places: &mut [u8],
) -> u32
    ensures { LinkTold
        places.old
        places.new
        (buffers image.new image_func_info.new image_line_info.new)
        result
        (link_entry
        little
        (link_offer code.now (bytes_of symbols.now) functions.now relocations.now instructions.now func_info.now line_info.now)
        root
        (lent_by (buffers image.old image_func_info.old image_line_info.old))) }
{
    let program = Program {
        instructions,
        func_info,
        line_info,
    };
    let mut out = Image {
        slots: image,
        func_info: image_func_info,
        line_info: image_line_info,
    };
    barkruffle::barkruffle_link_rows(
        code,
        symbols,
        functions,
        relocations,
        program,
        root,
        &mut out,
        places,
    )
}

// The row of lent symbols that has the index, or all ones where none has.
#[unsafe(no_mangle)]
pub extern "C" fn barkruffle_find_symbol(symbols: &[Symbol], index: u32) -> u64
    ensures { RowTold result (symbol_with (bytes_of symbols.now) index) }
{
    barkruffle::barkruffle_find_symbol(symbols, index)
}

// Reads struct bpf_func_info records into rows of table 7.
#[unsafe(no_mangle)]
pub extern "C" fn barkruffle_func_info(
    size: u32,
    count: u32,
    bytes: &[u8],
    out: &mut [u8],
    places: &mut [u8],
) -> u32
    ensures { ReadTold
        places.old
        places.new
        out.new
        result
        (read_records little FuncInfo (given size count bytes.now) (length out.old)) }
{
    let functions = Records {
        kind: RecordKind::Functions,
        size,
        count,
        bytes,
    };
    barkruffle::barkruffle_read(functions, out, places)
}

// Reads struct bpf_line_info records into rows of table 8.
#[unsafe(no_mangle)]
pub extern "C" fn barkruffle_line_info(
    size: u32,
    count: u32,
    bytes: &[u8],
    out: &mut [u8],
    places: &mut [u8],
) -> u32
    ensures { ReadTold
        places.old
        places.new
        out.new
        result
        (read_records little LineInfo (given size count bytes.now) (length out.old)) }
{
    let lines = Records {
        kind: RecordKind::Lines,
        size,
        count,
        bytes,
    };
    barkruffle::barkruffle_read(lines, out, places)
}

// Record k of struct bpf_func_info, its tail included; (0, 0) where it is refused.
#[unsafe(no_mangle)]
pub extern "C" fn barkruffle_func_info_record(size: u32, count: u32, bytes: &[u8], k: u32) -> Part
    ensures { Stands FuncInfo (given size count bytes.now) k result.at result.len }
{
    let functions = Records {
        kind: RecordKind::Functions,
        size,
        count,
        bytes,
    };
    barkruffle::barkruffle_record(functions, k)
}

// The same of struct bpf_line_info.
#[unsafe(no_mangle)]
pub extern "C" fn barkruffle_line_info_record(size: u32, count: u32, bytes: &[u8], k: u32) -> Part
    ensures { Stands LineInfo (given size count bytes.now) k result.at result.len }
{
    let lines = Records {
        kind: RecordKind::Lines,
        size,
        count,
        bytes,
    };
    barkruffle::barkruffle_record(lines, k)
}

// The number of what `barkruffle_func_info_record` gives.
#[unsafe(no_mangle)]
pub extern "C" fn barkruffle_func_info_record_number(
    size: u32,
    count: u32,
    bytes: &[u8],
    k: u32,
    places: &mut [u8],
) -> u32
    ensures { Told places.old places.new result (record_reply little FuncInfo (given size count bytes.now) k) }
{
    let functions = Records {
        kind: RecordKind::Functions,
        size,
        count,
        bytes,
    };
    barkruffle::barkruffle_record_number(functions, k, places)
}

// The number of what `barkruffle_line_info_record` gives.
#[unsafe(no_mangle)]
pub extern "C" fn barkruffle_line_info_record_number(
    size: u32,
    count: u32,
    bytes: &[u8],
    k: u32,
    places: &mut [u8],
) -> u32
    ensures { Told places.old places.new result (record_reply little LineInfo (given size count bytes.now) k) }
{
    let lines = Records {
        kind: RecordKind::Lines,
        size,
        count,
        bytes,
    };
    barkruffle::barkruffle_record_number(lines, k, places)
}
