// Coordinates of vertices in the caller's table of points, and exact points.
#![tactic(auto)]

ghost use Rattle.std.specs.Prelude.{◌≡◌, ℕ, ◌+◌, ◌*◌, ◌^◌, ◌≤◌, ◌<◌, nat_abs, length};
ghost use Rattle.integers.specs.Within.{Within};
ghost use Rattle.curve.specs.Weights.{tension};
ghost use Rattle.rings.specs.Scales.{coordinate_range};
ghost use Rattle.nets.specs.Net.{axis};
ghost use Rattle.coordinates.specs.Points.{InTable, OnAxes, on, put_point};
ghost use Rattle.coordinates.specs.Stencil.{FarIn, far_value, stencil_value, interior_value};

// What belongs to the axes 0, 1 and 2.
#[derive(Clone, Copy)]
pub struct Axes<T> {
    pub x: T,
    pub y: T,
    pub z: T,
}

impl<T: Copy> Axes<T> {
    // What belongs to axis a.
    pub fn on(self, a: usize) -> T
        requires { a < 3 }
        ensures { result ≡ on self a }
    {
        match a {
            0 => self.x,
            1 => self.y,
            _ => self.z,
        }
    }

    // f of what belongs to each axis.
    pub fn map<U: Copy, F: Fn(T) -> U>(self, f: F) -> Axes<U>
        requires { F.pre f self.x × F.pre f self.y × F.pre f self.z }
        ensures { F.post f self.x result.x × F.post f self.y result.y × F.post f self.z result.z }
    {
        Axes {
            x: f(self.x),
            y: f(self.y),
            z: f(self.z),
        }
    }
}

// An exact point: its numerators over one denominator.
pub type Exact = Axes<i64>;

// f(a) on each axis a.
pub fn on_axes<T: Copy, F: Fn(usize) -> T>(f: F) -> Axes<T>
    requires { F.pre f 0 × F.pre f 1 × F.pre f 2 }
    ensures { F.post f 0 result.x × F.post f 1 result.y × F.post f 2 result.z }
{
    Axes {
        x: f(0),
        y: f(1),
        z: f(2),
    }
}

// Coordinate a of vertex v.
pub fn coordinate(points: &[i32], v: usize, a: usize) -> i64
    requires { (a < 3) × InTable points.now v }
    ensures { result ≡ axis points.now a v }
{
    let x = points[3 * v + a];
    x as i64
}

// Writes the coordinates of vertex i.
pub fn put_point(table: &mut [i32], i: usize, x: i32, y: i32, z: i32)
    requires { 3 * i + 3 ≤ length table.old }
    ensures { table.new ≡ put_point table.old i x y z }
{
    table[3 * i] = x;
    table[3 * i + 1] = y;
    table[3 * i + 2] = z;
}

// The four-point rule at tension t on axis a of the vertices o, p, q, r.
fn interior_on(points: &[i32], o: usize, p: usize, q: usize, r: usize, a: usize, t: u32) -> i64
    requires within { Within coordinate_range points.now }
    requires a_bound { (a < 3) × InTable points.now o × InTable points.now p × InTable points.now q × InTable points.now r × (t ≤ 4) }
    ensures { result ≡ interior_value (tension t) (axis points.now a) o p q r }
{
    curve::four_point(
        coordinate(points, o, a),
        coordinate(points, p, a),
        coordinate(points, q, a),
        coordinate(points, r, a),
        t,
    )
}

// The same on all axes.
pub fn interior_exact(points: &[i32], o: usize, p: usize, q: usize, r: usize, t: u32) -> Exact
    requires within { Within coordinate_range points.now }
    requires in_table { InTable points.now o × InTable points.now p × InTable points.now q × InTable points.now r × (t ≤ 4) }
    ensures { OnAxes (λ (a : ℕ). interior_value (tension t) (axis points.now a) o p q r) result.x result.y result.z }
{
    on_axes(|a| interior_on(points, o, p, q, r, a, t))
}

// Coordinate a of the far point o beyond p, which is x; y is that of the other near point. Where there is no far point, the other near point is mirrored.
pub fn far_on(points: &[i32], o: Option<usize>, x: i64, y: i64, a: usize) -> i64
    requires { (a < 3) × FarIn points.now o × (nat_abs x < 2 ^ 56) × (nat_abs y < 2 ^ 56) }
    ensures { result ≡ far_value (axis points.now a) o x y }
{
    match o {
        Some(v) => coordinate(points, v, a),
        None => curve::mirrored(x, y),
    }
}

// The four-point rule at tension t on axis a of the vertices p and q between far points.
fn stencil_on(
    points: &[i32],
    o: Option<usize>,
    p: usize,
    q: usize,
    r: Option<usize>,
    a: usize,
    t: u32,
) -> i64
    requires within { Within coordinate_range points.now }
    requires a_bound { (a < 3) × FarIn points.now o × InTable points.now p × InTable points.now q × FarIn points.now r × (t ≤ 4) }
    ensures { result ≡ stencil_value (tension t) (axis points.now a) o p q r }
{
    let x = coordinate(points, p, a);
    let y = coordinate(points, q, a);
    let u = far_on(points, o, x, y, a);
    let v = far_on(points, r, y, x, a);
    curve::four_point(u, x, y, v, t)
}

// The same on all axes.
pub fn stencil_exact(
    points: &[i32],
    o: Option<usize>,
    p: usize,
    q: usize,
    r: Option<usize>,
    t: u32,
) -> Exact
    requires within { Within coordinate_range points.now }
    requires far_in { FarIn points.now o × InTable points.now p × InTable points.now q × FarIn points.now r × (t ≤ 4) }
    ensures { OnAxes (λ (a : ℕ). stencil_value (tension t) (axis points.now a) o p q r) result.x result.y result.z }
{
    on_axes(|a| stencil_on(points, o, p, q, r, a, t))
}
