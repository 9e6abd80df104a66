// Numbers in lent bytes, least byte first: reads, stores, copies, wiping, place numbers.
#![tactic(auto)]

ghost use Rattle.std.specs.List.{list_all};
ghost use Rattle.std.specs.Prelude.{◌≡◌, ◌==◌, [], ◌∷◌, ◌+◌, ◌*◌, ◌≤◌, ◌<◌, length, take, drop, replicate};
ghost use Rattle.rules.specs.Bytes.{little, u16_at, u32_at, u64_at, bytes4, signed, unsigned, half16, half32, splice, zero_after};
ghost use Rattle.rules.specs.Answers.{numbers, places_in};
ghost use Rattle.rules.specs.Rows.{all_zero};

// The N bytes from a place on.
fn bytes_at<const N: usize>(s: &[u8], at: usize) -> [u8; N]
    requires { at + N ≤ length s.now }
    ensures { result ≡ take N (drop at s.now) }
{
    *s[at..at + N].first_chunk().unwrap()
}

// Put in the place of what stood there.
fn put_bytes<const N: usize>(out: &mut [u8], at: usize, bytes: [u8; N])
    requires { at + N ≤ length out.old }
    ensures { out.new ≡ splice out.old at bytes.entry }
{
    out[at..at + N].copy_from_slice(&bytes);
}

// Bytes and place are lent side by side in what is public: docs/CLAIMS.md names most of these functions, so a type with an invariant may not ask for
// the room in their place. Each width is a line over the two above.
pub fn u16_at(s: &[u8], at: usize) -> u32
    requires { at + 2 ≤ length s.now }
    ensures { (result ≡ u16_at little s.now at) × (result < 0x1_0000) }
{
    u32::from(u16::from_le_bytes(bytes_at(s, at)))
}

pub fn u32_at(s: &[u8], at: usize) -> u32
    requires { at + 4 ≤ length s.now }
    ensures { result ≡ u32_at little s.now at }
{
    u32::from_le_bytes(bytes_at(s, at))
}

pub fn u64_at(s: &[u8], at: usize) -> u64
    requires { at + 8 ≤ length s.now }
    ensures { result ≡ u64_at little s.now at }
{
    u64::from_le_bytes(bytes_at(s, at))
}

pub fn signed32(u: u32) -> i32
    ensures { result ≡ signed half32 u }
{
    u.cast_signed()
}

pub fn i16_at(s: &[u8], at: usize) -> i16
    requires { at + 2 ≤ length s.now }
    ensures { result ≡ signed half16 (u16_at little s.now at) }
{
    i16::from_le_bytes(bytes_at(s, at))
}

pub fn i32_at(s: &[u8], at: usize) -> i32
    requires { at + 4 ≤ length s.now }
    ensures { result ≡ signed half32 (u32_at little s.now at) }
{
    i32::from_le_bytes(bytes_at(s, at))
}

// What signed32 reads back.
pub fn bits32(v: i32) -> u32
    ensures { result ≡ unsigned half32 v }
{
    v.cast_unsigned()
}

pub fn put_u32(out: &mut [u8], at: usize, v: u32)
    requires { at + 4 ≤ length out.old }
    ensures { out.new ≡ splice out.old at (bytes4 little v) }
{
    put_bytes(out, at, v.to_le_bytes());
}

pub fn put_i32(out: &mut [u8], at: usize, v: i32)
    requires { at + 4 ≤ length out.old }
    ensures { out.new ≡ splice out.old at (bytes4 little (unsigned half32 v)) }
{
    put_u32(out, at, bits32(v));
}

// Byte by byte, and not by copy_from_slice: of n bytes that calls memmove, which C would have to bring (docs/LOOK-BACK.md).
pub fn copy(out: &mut [u8], at: usize, src: &[u8], from: usize, n: usize)
    requires { (at + n ≤ length out.old) × (from + n ≤ length src.now) }
    ensures { out.new ≡ splice out.old at (take n (drop from src.now)) }
{
    for i in 0..n {
        out[at + i] = src[from + i];
    }
}

pub fn wipe(out: &mut [u8])
    ensures { out.new ≡ replicate (length out.old) 0 }
{
    out.fill(0);
}

pub fn wipe_after(out: &mut [u8], n: usize)
    requires { n ≤ length out.old }
    ensures { out.new ≡ zero_after n out.old }
{
    wipe(&mut out[n..]);
}

pub fn all_zero(s: &[u8], at: usize, n: usize) -> bool
    requires { at + n ≤ length s.now }
    ensures { result ≡ all_zero (take n (drop at s.now)) }
{
    is_zero(&s[at..at + n])
}

fn is_zero(s: &[u8]) -> bool
    ensures { result ≡ list_all (λ b. b == 0) s.now }
{
    s.iter().all(|b| *b == 0)
}

// One after the other.
pub fn put_numbers<const N: usize>(out: &mut [u8], at: usize, list: [u32; N])
    requires { at + 4 * N ≤ length out.old }
    ensures { out.new ≡ splice out.old at (numbers list.entry) }
{
    for (i, n) in list.iter().enumerate() {
        put_u32(out, at + 4 * i, *n);
    }
}

// Those that fit whole, zero after.
pub fn put_places(out: &mut [u8], a: u32, b: u32, c: u32)
    ensures { out.new ≡ places_in (length out.old) (a ∷ b ∷ c ∷ []) }
{
    wipe(out);
    let numbers = [a, b, c];
    for (i, n) in numbers.iter().enumerate() {
        let end = 4 * i + 4;
        if out.len() < end {
            return;
        }
        put_u32(out, 4 * i, *n);
    }
}
