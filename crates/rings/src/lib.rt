// The ring of a vertex and its virtual points: definitions in specs/, laws in proofs/; and the table of weights.
#![tactic(auto)]

ghost use Rattle.std.specs.Prelude.{◌≡◌, ◌≤◌, pos, nat_abs};
ghost use Rattle.curve.specs.Weights.{tension};
ghost use Rattle.rings.specs.Scales.{virtual_scale};
ghost use Rattle.rings.specs.RingWeights.{unit_weights, weight_of, row};

// The weights over n where near and far are 1, a row for each size n of a ring, from 3 to 8: eight for the neighbours, from the edge on, then eight for the opposite
// corners. For n = 3 one corner is k_(j-2) and k_(j+1) in one.
const UNIT_WEIGHTS: [[i8; 16]; 6] = [
    [1, 1, 1, 0, 0, 0, 0, 0, -1, 2, -1, 0, 0, 0, 0, 0],
    [0, 0, 4, 0, 0, 0, 0, 0, 0, 0, 0, 0, 0, 0, 0, 0],
    [-1, -1, 4, 4, -1, 0, 0, 0, 1, 1, -4, 1, 1, 0, 0, 0],
    [-2, -2, 4, 4, 4, -2, 0, 0, 2, 2, -4, -4, 2, 2, 0, 0],
    [-3, -3, 4, 4, 4, 4, -3, 0, 3, 3, -4, -4, -4, 3, 3, 0],
    [-4, -4, 4, 4, 4, 4, 4, -4, 4, 4, -4, -4, -4, -4, 4, 4],
];

// The row of a ring of n.
fn unit_weights(n: usize) -> [i8; 16]
    requires { (3 ≤ n) × (n ≤ 8) }
    ensures { result ≡ row unit_weights n }
{
    UNIT_WEIGHTS[n - 3]
}

// The unit weight x at place o of a row, times near or far at tension t.
fn weight(t: u32, o: usize, x: i8) -> i64
    requires { (t ≤ 4) × (nat_abs x ≤ 4) }
    ensures { result ≡ weight_of (tension t) o x }
{
    let far = t as i64;
    let unit = x as i64;
    if o < 8 { (32 + far) * unit } else { far * unit }
}

// The weights of a ring of n at tension t.
pub fn weights(n: usize, t: u32) -> [i64; 16]
    requires { (3 ≤ n) × (n ≤ 8) × (t ≤ 4) }
    ensures { result ≡ row (tension t) n }
{
    let units = unit_weights(n);
    let mut w = [0; 16];
    for i in 0..16 {
        w[i] = weight(t, i, units[i]);
    }
    w
}

// The denominator of virtual points at tension t.
pub fn virtual_scale(t: u32) -> i64
    requires { t ≤ 4 }
    ensures { result ≡ pos (virtual_scale (tension t)) }
{
    50400 * (32 + t as i64)
}
