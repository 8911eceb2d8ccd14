// The mate of a refined side, from that of the half-edge that it is half of.
#![tactic(auto)]

ghost use Rattle.std.specs.Prelude.{◌≡◌, ◌+◌, ◌*◌, ◌%◌, ◌≤◌, ◌<◌};
ghost use Rattle.bounds.specs.Bounds.{max_half_edges};
ghost use Rattle.sidemates.specs.FirstMate.{first_mate};

// The mate of side 0 of a refined face at a half-edge with the mate m, of n half-edges.
pub fn first_mate(n: u32, m: u32) -> u32
    requires { (m ≤ n) × (n ≤ max_half_edges) }
    ensures { result ≡ first_mate n m }
{
    if m < n {
        return 16 * (m / 4) + 4 * ((m + 1) % 4) + 3;
    }
    4 * n
}

// The same where m is a side 1 or 2.
pub fn inner_mate(m: u32) -> u32
    requires { m < max_half_edges }
    ensures { result ≡ 4 * m + 7 }
{
    4 * m + 7
}

// The same at side i of a face that a round made: m is a side 3 - i, or none where i is 0 or 3.
pub fn later_mate(n: u32, i: u32, m: u32) -> u32
    requires { (m ≤ n) × (n ≤ max_half_edges) × (m < n → m % 4 + i ≡ 3) × (0 < i → i < 3 → m < n) }
    ensures mate { result ≡ first_mate n m }
    ensures inner { 0 < i → i < 3 → result ≡ 4 * m + 7 }
{
    match i {
        1 | 2 => inner_mate(m),
        0 if m < n => 4 * m - 9,
        _ if m < n => 4 * m + 7,
        _ => 4 * n,
    }
}
