// Midpoints of edges and means of corners, rounded, written to the table of points that they are made from.
#![tactic(auto)]

ghost use Rattle.std.specs.Prelude.{◌≡◌, ◌+◌, ◌*◌, ◌≤◌, ◌<◌, nat_abs, length};
ghost use Rattle.bounds.specs.Bounds.{max_coordinate};
ghost use Rattle.integers.specs.Sum.{sum};
ghost use Rattle.rounding.specs.Rounding.{round};
ghost use Rattle.coordinates.specs.Points.{put_point};
ghost use Rattle.splitpoints.specs.Points.{BoundedVertex, Corners, midpoint_on, corner_on, mean_on};

// z / d, where z is a sum of d coordinates, rounded.
fn rounded(z: i64, d: u32) -> i32
    requires { (0 < d) × (d ≤ 8) × (nat_abs z ≤ d * max_coordinate) }
    ensures { result ≡ round z d }
{
    rounding::round_div(2 * z, d as u64) as i32
}

// Coordinate a of the midpoint of the vertices p and q.
fn midpoint(points: &[i32], p: usize, q: usize, a: usize) -> i32
    requires { BoundedVertex points.now p × BoundedVertex points.now q × (a < 3) }
    ensures { result ≡ midpoint_on points.now p q a }
{
    let x = coordinates::coordinate(points, p, a);
    let y = coordinates::coordinate(points, q, a);
    rounded(x + y, 2)
}

// Writes the midpoint of the vertices p and q as vertex i.
pub fn put_midpoint(points: &mut [i32], i: usize, p: usize, q: usize)
    requires i_in_bounds { 3 * i + 3 ≤ length points.old }
    requires bounded_vertex { BoundedVertex points.old p × BoundedVertex points.old q }
    ensures { points.new ≡ put_point points.old i (midpoint_on points.old p q 0)
        (midpoint_on points.old p q 1) (midpoint_on points.old p q 2) }
{
    let at = coordinates::on_axes(|a| midpoint(&*points, p, q, a));
    coordinates::put_point(&mut *points, i, at.x, at.y, at.z);
}

// The sum of coordinate a of c corners, from h on.
fn corner_sum(points: &[i32], faces: &[u32], h: usize, c: usize, a: usize) -> i64
    requires { Corners points.now faces.now h c × (a < 3) }
    ensures { result ≡ sum c (corner_on points.now faces.now h a) }
{
    let mut total: i64 = 0;
    for k in 0..c {
        let v = halfedges::start_of(faces, h + k);
        total += coordinates::coordinate(points, v, a);
    }
    total
}

// Coordinate a of the mean of c corners, from h on.
fn mean(points: &[i32], faces: &[u32], h: usize, c: usize, a: usize) -> i32
    requires { Corners points.now faces.now h c × (a < 3) }
    ensures { result ≡ mean_on points.now faces.now h c a }
{
    let z = corner_sum(points, faces, h, c, a);
    rounded(z, c as u32)
}

// Writes the mean of c corners, from h on, as vertex i.
pub fn put_mean(points: &mut [i32], faces: &[u32], i: usize, h: usize, c: usize)
    requires i_in_bounds { 3 * i + 3 ≤ length points.old }
    requires corners { Corners points.old faces.now h c }
    ensures { points.new ≡ put_point points.old i (mean_on points.old faces.now h c 0)
        (mean_on points.old faces.now h c 1) (mean_on points.old faces.now h c 2) }
{
    let at = coordinates::on_axes(|a| mean(&*points, faces, h, c, a));
    coordinates::put_point(&mut *points, i, at.x, at.y, at.z);
}
