// The point of an edge, rounded, from its exact point and its flag.
#![tactic(auto)]

ghost use Rattle.std.specs.Prelude.{◌≡◌, ◌+◌, ◌*◌, ◌^◌, ◌≤◌, nat_abs, length};
ghost use Rattle.rounding.specs.Rounding.{round};
ghost use Rattle.curve.specs.Weights.{tension};
ghost use Rattle.rings.specs.Scales.{edge_scale, edge_range};
ghost use Rattle.coordinates.specs.Points.{put_point};
ghost use Rattle.edgepoints.specs.Kind.{flag_of};
ghost use Rattle.edgerounding.specs.Rounded.{rounded_by, Small};

use coordinates::{Axes, Exact};
use edgepoints::Edge;

// A coordinate over 64, rounded.
pub fn rounded_plain(z: i64) -> i32
    requires { nat_abs z ≤ 2 ^ 33 }
    ensures { result ≡ round z 64 }
{
    rounding::round_shift(z, 32, 6) as i32
}

// Half the denominator of wide edges.
fn half_edge_scale(t: u32) -> u64
    requires { t ≤ 4 }
    ensures { (2 * result ≡ edge_scale (tension t)) × (result ≡ 1612800 * (32 + t)) }
{
    1612800 * (32 + t as u64)
}

// A coordinate over the wide denominator, rounded.
fn rounded_wide(z: i64, t: u32) -> i32
    requires { (nat_abs z ≤ edge_range (tension t)) × (t ≤ 4) }
    ensures { result ≡ round z (edge_scale (tension t)) }
{
    rounding::round_div(z, half_edge_scale(t)) as i32
}

// The point of an edge with this flag, rounded.
fn rounded_point(point: Exact, flag: u32, t: u32) -> Axes<i32>
    requires { Small (tension t) flag point.x point.y point.z × (t ≤ 4) }
    ensures x { result.x ≡ rounded_by (tension t) flag point.x }
    ensures y { result.y ≡ rounded_by (tension t) flag point.y }
    ensures z { result.z ≡ rounded_by (tension t) flag point.z }
{
    if flag == edgeentries::WIDE {
        return point.map(|z| rounded_wide(z, t));
    }
    point.map(|z| rounded_plain(z))
}

// Writes the rounded coordinates of vertex i, from the exact point and the flag of an edge.
pub fn put_flagged(points: &mut [i32], i: usize, point: Exact, flag: u32, t: u32)
    requires { (3 * i + 3 ≤ length points.old) × Small (tension t) flag point.x point.y point.z × (t ≤ 4) }
    ensures { points.new ≡ put_point points.old i (rounded_by (tension t) flag point.x) (rounded_by (tension t) flag point.y) (rounded_by (tension t) flag point.z) }
{
    let p = rounded_point(point, flag, t);
    coordinates::put_point(&mut *points, i, p.x, p.y, p.z);
}

// The same from the edge.
pub fn put_rounded(points: &mut [i32], i: usize, e: Edge, t: u32)
    requires { (3 * i + 3 ≤ length points.old) × Small (tension t) (flag_of e.kind) e.point.x e.point.y e.point.z × (t ≤ 4) }
    ensures { points.new ≡ put_point points.old i (rounded_by (tension t) (flag_of e.kind) e.point.x) (rounded_by (tension t) (flag_of e.kind) e.point.y) (rounded_by (tension t) (flag_of e.kind) e.point.z) }
{
    put_flagged(&mut *points, i, e.point, e.kind.flag(), t);
}
