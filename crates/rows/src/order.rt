// Two numbers of a row as a pair: a section, and an address or an offset in it.
// Bools joined by & and |, as the definitions join them (docs/DECISIONS.md), in place of a tuple's order; the two
// places as numbers, which `eqb` and `below` are over. Four numbers: two come from a row's readers and two from the caller's hand.
ghost use Rattle.std.specs.Prelude.{◌≡◌, ◌&&◌, eqb};
ghost use Rattle.rules.specs.Rows.{below};

use rules::ByteOffset;

pub fn same_place(section: u32, at: ByteOffset, home: u32, offset: ByteOffset) -> bool
    ensures { result ≡ (eqb section home && eqb at.0 offset.0) }
{
    (section == home) & (at.0 == offset.0)
}

// (section, at) before (home, offset).
pub fn is_before(section: u32, at: ByteOffset, home: u32, offset: ByteOffset) -> bool
    ensures { result ≡ below section at.0 home offset.0 }
{
    (section < home) | ((section == home) & (at.0 < offset.0))
}
