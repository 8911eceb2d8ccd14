// Edges in the work table of a round: behind the mates of the n half-edges the entry of each edge, its number and a flag, and from 2n on the exact points, six numbers each. A
// coordinate is two 32-bit numbers, its lower half first.
#![tactic(auto)]

ghost use Rattle.std.specs.Prelude.{◌≡◌, ◌+◌, ◌*◌, ◌^◌, ◌≤◌, ◌<◌, ltb, leb, nat_abs, length, get_or};
ghost use Rattle.edgeentries.specs.Packed.{biased, biased_at, packed_at, put, put_three};
ghost use Rattle.edgeentries.specs.Entry.{wide_flag, boundary_flag, entry_of, edge_of, point_place, place_of, put_edge, copied};

use coordinates::Exact;

// The flag of an inner edge whose point is kept over `edge_scale`. Other inner edges have none. Edge numbers are smaller.
pub const WIDE: u32 = 536870912;

// The flag of a boundary edge.
pub const BOUNDARY: u32 = 1073741824;

// The entry of the edge of h.
pub fn entry_at(work: &[u32], n: usize, h: usize) -> usize
    requires { n + h < length work.now }
    ensures { (result ≡ entry_of n work.now h) × (result < 2 ^ 32) }
{
    work[n + h] as usize
}

// The entry of the edge of side i of a face whose side 0 is h. With the sum in this order the compiler reads all sides from one place.
pub fn side_entry(work: &[u32], n: usize, h: usize, i: usize) -> usize
    requires { n + h + i < length work.now }
    ensures { (result ≡ entry_of n work.now (h + i)) × (result < 2 ^ 32) }
{
    work[n + h + i] as usize
}

// Gives h the entry of m too.
pub fn copy_entry(work: &mut [u32], n: usize, m: usize, h: usize)
    requires { (n + m < length work.old) × (n + h < length work.old) }
    ensures { work.new ≡ copied n work.old m h }
{
    let entry = work[n + m];
    work[n + h] = entry;
}

// The number of the edge of an entry.
pub fn number_of(entry: usize) -> usize
    ensures { result ≡ edge_of entry }
{
    entry % WIDE as usize
}

// Whether an entry is that of a plain edge, which has no flag.
pub fn is_plain(entry: usize) -> bool
    ensures { result ≡ ltb entry wide_flag }
{
    entry < WIDE as usize
}

// Whether an entry is that of a boundary edge.
pub fn is_boundary(entry: usize) -> bool
    ensures { result ≡ leb boundary_flag entry }
{
    BOUNDARY as usize <= entry
}

// Where the exact point of an edge stands, by its number.
pub fn point_place(n: usize, number: usize) -> usize
    requires { (n < 2 ^ 32) × (number < 2 ^ 32) }
    ensures { result ≡ point_place n number }
{
    2 * n + 6 * number
}

// z + 2^56 + 2^31. With this number the compiler makes one store of the two halves.
fn bias(z: i64) -> u64
    requires { nat_abs z < 2 ^ 55 }
    ensures { result ≡ biased z }
{
    (z + 72057596185411584) as u64
}

// x in 64 bits.
fn wide(x: u32) -> u64
    ensures { (result ≡ x) × (result < 2 ^ 32) }
{
    x as u64
}

// The number at the place `at` as it is packed: 2^56 + 2^31 more. The halves are joined where they are read, so that the compiler makes one read of both.
pub fn load_biased(table: &[u32], at: usize) -> i64
    requires { (at + 2 ≤ length table.now) × (get_or table.now (at + 1) 0 < 2 ^ 31) }
    ensures { (result ≡ biased_at table.now at) × (nat_abs result < 2 ^ 63) }
{
    let lo = wide(table[at]);
    let hi = wide(table[at + 1]);
    let u = hi * 4294967296 + lo;
    u as i64
}

// The number at the place `at`.
fn load(table: &[u32], at: usize) -> i64
    requires { (at + 2 ≤ length table.now) × (get_or table.now (at + 1) 0 < 2 ^ 31) }
    ensures { result ≡ packed_at table.now at }
{
    load_biased(table, at) - 72057596185411584
}

// Writes z at the place `at`.
fn store(table: &mut [u32], at: usize, z: i64)
    requires { (at + 2 ≤ length table.old) × (nat_abs z < 2 ^ 55) }
    ensures { table.new ≡ put table.old at z }
{
    let u = bias(z);
    table[at] = (u % 4294967296) as u32;
    table[at + 1] = (u / 4294967296) as u32;
}

// Writes an exact point from the place `at` on.
fn store_exact(table: &mut [u32], at: usize, e: Exact)
    requires at_in_bounds { at + 6 ≤ length table.old }
    requires x_bound { (nat_abs e.x < 2 ^ 55) × (nat_abs e.y < 2 ^ 55) × (nat_abs e.z < 2 ^ 55) }
    ensures { table.new ≡ put_three table.old at e.x e.y e.z }
{
    store(&mut *table, at, e.x);
    store(&mut *table, at + 2, e.y);
    store(&mut *table, at + 4, e.z);
}

// The stored numerator on axis a of the exact point of an entry.
pub fn exact_at(work: &[u32], n: usize, entry: usize, a: usize) -> i64
    requires { (n < 2 ^ 32) × (a < 3) × (place_of n entry + 6 ≤ length work.now) × (get_or work.now (place_of n entry + 2 * a + 1) 0 < 2 ^ 31) }
    ensures { result ≡ packed_at work.now (place_of n entry + 2 * a) }
{
    load(work, point_place(n, number_of(entry)) + 2 * a)
}

// Writes the entry of h, a new edge with this number and flag, and its exact point.
pub fn store_edge(work: &mut [u32], n: usize, h: usize, number: usize, flag: u32, e: Exact)
    requires n_bound { (n < 2 ^ 32) × (number < 2 ^ 30) × (flag ≤ boundary_flag) }
    requires h_in_bounds { (n + h < length work.old) × (point_place n number + 6 ≤ length work.old) }
    requires x_bound { (nat_abs e.x < 2 ^ 55) × (nat_abs e.y < 2 ^ 55) × (nat_abs e.z < 2 ^ 55) }
    ensures { work.new ≡ put_edge n work.old h number flag e.x e.y e.z }
{
    store_exact(&mut *work, point_place(n, number), e);
    work[n + h] = number as u32 + flag;
}
