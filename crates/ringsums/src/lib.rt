// Sums over the vertices round a vertex, by the weights of a ring and without, on the caller's tables.
#![tactic(auto)]

ghost use Rattle.std.specs.Prelude.{◌≡◌, ℕ, ◌+◌, ◌*◌, ◌/◌, ◌^◌, ◌≤◌, ◌<◌, pos, nat_abs, ◌*ℤ◌, length, get_or};
ghost use Rattle.integers.specs.Sum.{sum};
ghost use Rattle.integers.specs.Within.{Within, WithinFirst};
ghost use Rattle.rings.specs.Scales.{extrapolated_scale, valence_scale, coordinate_range, extrapolated_range};
ghost use Rattle.nets.specs.Net.{axis};
ghost use Rattle.coordinates.specs.Points.{InTable, OnAxes, on};
ghost use Rattle.ringsums.specs.Sums.{VerticesIn, FanIn, weight_range, sum_range, weighed, place_on, weighted_sum, ring_sum, fan_sum};

use coordinates::Exact;

// The faces met in turning about a vertex from a half-edge, eight at most: how many, their neighbours and opposite corners, the half-edge in the last, and the one after
// it, which is the first again or none.
#[derive(Clone, Copy, Default)]
pub struct Fan {
    pub neighbours: [usize; 8],
    pub opposites: [usize; 8],
    pub count: u16,
    pub last: usize,
    pub after: usize,
}

// The denominator of extrapolated points.
pub const EXTRAPOLATED_SCALE: i64 = 60;

// What the sizes of rings divide.
const VALENCE_SCALE: usize = 840;

// The place s of a ring of n places, where s is less than twice round.
fn place_on(n: usize, s: usize) -> usize
    ensures { result ≡ place_on n s }
{
    if s < n { s } else { s - n }
}

// The neighbour x and the opposite corner y by the weights at place d.
fn weigh(w: &[i64; 16], d: usize, x: i64, y: i64) -> i64
    requires { WithinFirst 16 weight_range w.now × (d < 8) × (nat_abs x ≤ extrapolated_range) × (nat_abs y ≤ extrapolated_range) }
    ensures { result ≡ weighed w.now d x y }
{
    let u = w[d];
    let v = w[8 + d];
    u * x + v * y
}

// The vertices p and q by them, on axis a.
fn weigh_on(points: &[i32], w: &[i64; 16], d: usize, p: usize, q: usize, a: usize) -> i64
    requires within { Within coordinate_range points.now × WithinFirst 16 weight_range w.now }
    requires d_bound { (d < 8) × (a < 3) × InTable points.now p × InTable points.now q }
    ensures { result ≡ weighed w.now d (axis points.now a p) (axis points.now a q) }
{
    weigh(
        w,
        d,
        coordinates::coordinate(points, p, a),
        coordinates::coordinate(points, q, a),
    )
}

// The sums of the neighbours and opposite corners of a fan by the weights w of a ring of n, of which they take the places from e on.
pub fn weighted_sum(points: &[i32], w: &[i64; 16], fan: &Fan, n: usize, e: usize) -> Exact
    requires within { Within coordinate_range points.now × WithinFirst 16 weight_range w.now }
    requires fan_in { (fan.now.count ≤ n) × (n ≤ 8) × (e ≤ n) × FanIn points.now fan.now }
    ensures { OnAxes (λ (a : ℕ). weighted_sum w.now n e fan.now.count (axis points.now a) fan.now.neighbours fan.now.opposites) result.x result.y result.z }
{
    let mut x: i64 = 0;
    let mut y: i64 = 0;
    let mut z: i64 = 0;
    for i in 0..fan.count as usize {
        let d = place_on(n, e + i);
        let p = fan.neighbours[i];
        let q = fan.opposites[i];
        let s = coordinates::on_axes(|a| weigh_on(points, w, d, p, q, a));
        x += s.x;
        y += s.y;
        z += s.z;
    }
    Exact { x, y, z }
}

// v, which is over near · n times the extrapolated scale, over one denominator for all sizes n of a ring.
fn times_share(n: usize, v: i64) -> i64
    requires { (3 ≤ n) × (n ≤ 8) × (nat_abs v ≤ 2 ^ 50) }
    ensures { result ≡ pos (valence_scale / n) *ℤ v }
{
    (VALENCE_SCALE / n) as i64 * v
}

// The same for a sum s over vertices, which is over near · n alone.
pub fn scaled_share(n: usize, s: i64) -> i64
    requires { (3 ≤ n) × (n ≤ 8) × (nat_abs s ≤ sum_range) }
    ensures { result ≡ ring_sum n s }
{
    times_share(n, EXTRAPOLATED_SCALE * s)
}

// The sum over the vertices of a list, on axis a.
pub fn vertex_sum(points: &[i32], l: &[usize], a: usize) -> i64
    requires { Within coordinate_range points.now × (a < 3) × (length l.now ≤ 5) × VerticesIn points.now (length l.now) l.now }
    ensures { result ≡ sum (length l.now) (λ (i : ℕ). axis points.now a (get_or l.now i 0)) }
{
    let mut total: i64 = 0;
    for v in l {
        total += coordinates::coordinate(points, *v, a);
    }
    total
}

// A fan closed to a ring of n, on axis a: s is the sum over its faces, the neighbour c and the corner q take the place t, the neighbour p and the corner r the next.
pub fn closed_on(
    points: &[i32],
    w: &[i64; 16],
    n: usize,
    t: usize,
    s: Exact,
    c: usize,
    p: Exact,
    q: Exact,
    r: Exact,
    a: usize,
) -> i64
    requires within { Within coordinate_range points.now × WithinFirst 16 weight_range w.now × (a < 3) × InTable points.now c }
    requires le_n { (3 ≤ n) × (n ≤ 8) × (t + 2 ≤ n) }
    requires bounded { (nat_abs (on s a) ≤ sum_range) × (nat_abs (on p a) ≤ extrapolated_range) × (nat_abs (on q a) ≤ extrapolated_range) × (nat_abs (on r a) ≤ extrapolated_range) }
    ensures { result ≡ fan_sum w.now n t (on s a) (pos extrapolated_scale *ℤ axis points.now a c) (on q a) (on p a) (on r a) }
{
    let x = EXTRAPOLATED_SCALE * coordinates::coordinate(points, c, a);
    let u = weigh(w, t, x, q.on(a));
    let v = weigh(w, t + 1, p.on(a), r.on(a));
    times_share(n, EXTRAPOLATED_SCALE * s.on(a) + u + v)
}
