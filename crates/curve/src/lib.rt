// The four-point curve: definitions in specs/, laws in proofs/; and its rules as functions: the end rule and the single rule are the four-point rule with mirrored points.
#![tactic(auto)]

ghost use Rattle.std.specs.Prelude.{◌≡◌, ◌*◌, ◌≤◌, ◌<◌, ◌^◌, nat_abs};
ghost use Rattle.curve.specs.Weights.{tension, interior, mirror};

// The exact point between q and r of consecutive p, q, r, s, at tension t, over 64 times their denominator.
pub fn four_point(p: i64, q: i64, r: i64, s: i64, t: u32) -> i64
    requires { (t ≤ 4) × (nat_abs p < 3 * 2 ^ 55) × (nat_abs q < 3 * 2 ^ 55) × (nat_abs r < 3 * 2 ^ 55) × (nat_abs s < 3 * 2 ^ 55) }
    ensures { result ≡ interior (tension t) p q r s }
{
    let far = t as i64;
    (32 + far) * (q + r) - far * (p + s)
}

// The point q mirrored at p. With it in place of a point that is missing beyond p, the four-point rule is that of an end edge.
pub fn mirrored(p: i64, q: i64) -> i64
    requires { (nat_abs p < 2 ^ 56) × (nat_abs q < 2 ^ 56) }
    ensures { result ≡ mirror p q }
{
    2 * p - q
}
