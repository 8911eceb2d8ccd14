// Clearing, copying and filling the caller's tables.
#![tactic(auto)]

ghost use Rattle.std.specs.Prelude.{◌+◌, ◌≤◌, ◌≡◌, length};
ghost use Rattle.tables.specs.Tables.{filled, cleared, put_four, ZerosFrom, SameOutside};

// Sets the first n numbers to zero.
pub fn clear(work: &mut [u32], n: usize)
    requires { n ≤ length work.old }
    ensures { work.new ≡ cleared n work.old }
{
    work[..n].fill(0);
}

// Sets the n numbers from the place `at` on to zero.
pub fn clear_from(work: &mut [u32], at: usize, n: usize)
    requires { at + n ≤ length work.old }
    ensures zeros_from { ZerosFrom n at work.new }
    ensures same_outside { SameOutside at (at + n) work.old work.new }
{
    work[at..at + n].fill(0);
}

// Copies a table to the front of another.
pub fn copy<T: Copy>(src: &[T], dst: &mut [T])
    requires { length src.now ≤ length dst.old }
    ensures { dst.new ≡ filled src.now dst.old }
{
    // One by one: an archive with `copy_from_slice` needs `memmove` from outside.
    for i in 0..src.len() {
        dst[i] = src[i];
    }
}

// Writes four numbers from the place `at` on, the last first.
pub fn put_four(table: &mut [u32], at: usize, a: u32, b: u32, c: u32, d: u32)
    requires { at + 4 ≤ length table.old }
    ensures { table.new ≡ put_four table.old at a b c d }
{
    table[at + 3] = d;
    table[at + 2] = c;
    table[at + 1] = b;
    table[at] = a;
}
