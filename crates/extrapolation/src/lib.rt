// What is met in turning round a vertex, and the extrapolated point of a boundary vertex, on all axes.
#![tactic(auto)]

ghost use Rattle.std.specs.Prelude.{◌≡◌, ◌*◌, ◌≤◌, ◌<◌, pos, nat_abs, ◌-ℤ◌, ◌*ℤ◌, length};
ghost use Rattle.rings.specs.Scales.{extrapolated_scale, coordinate_range};
ghost use Rattle.topology.specs.Shape.{quads};
ghost use Rattle.topology.specs.Boundary.{OnBoundary};
ghost use Rattle.walks.specs.Ready.{Ready};
ghost use Rattle.coordinates.specs.Points.{Points, OnAxes};
ghost use Rattle.extrapolation.specs.Gathered.{Gathered, OpenFan};
ghost use Rattle.ringsums.specs.Sums.{FanIn};
ghost use Rattle.extrapolation.specs.Exact.{extrapolated_on};

use coordinates::Exact;
use halfedges::Mesh;
use ringsums::Fan;

// The denominator of extrapolated points, where it is divided by the number of inner edges of a fan.
const EXTRAPOLATED_SHARES: u16 = 60;

// Gathers the faces met in turning from h.
pub fn gather(mesh: Mesh, h: usize, fan: &mut Fan)
    requires ready { Ready mesh.faces.now mesh.work.now }
    requires h_in_bounds { h < length mesh.faces.now }
    ensures { Gathered mesh.entry.faces.now h fan.new }
{
    let n = mesh.half_edges();
    let mut g = h;
    let mut i = 0;
    loop {
        fan.neighbours[i] = mesh.end_of(g);
        fan.opposites[i] = mesh.opposite_corner(g);
        i += 1;
        let m = mesh.turn(g);
        if m == n || m == h {
            fan.count = i as u16;
            fan.last = g;
            fan.after = m;
            return;
        }
        g = m;
    }
}

// Twice p, over the scale, less c times q.
fn reflected(p: i64, q: i64, c: u16) -> i64
    requires { (nat_abs p ≤ coordinate_range) × (nat_abs q ≤ 5 * coordinate_range) × (c ≤ extrapolated_scale) }
    ensures { result ≡ pos (2 * extrapolated_scale) *ℤ p -ℤ pos c *ℤ q }
{
    2 * ringsums::EXTRAPOLATED_SCALE * p - c as i64 * q
}

// The extrapolated point of the vertex that s leaves, on axis a, from its open fan.
fn extrapolated_on(points: &[i32], faces: &[u32], s: usize, fan: &Fan, a: usize) -> i64
    requires points { Points faces.now points.now × OpenFan faces.now s fan.now }
    requires a_bound { (a < 3) × FanIn points.now fan.now }
    ensures { result ≡ extrapolated_on faces.now points.now s a }
{
    let p = coordinates::coordinate(points, halfedges::start_of(faces, s), a);
    if fan.count == 1 {
        let q = coordinates::coordinate(points, fan.opposites[0], a);
        return reflected(p, q, EXTRAPOLATED_SHARES);
    }
    let far = &fan.neighbours[1..fan.count as usize];
    let q = ringsums::vertex_sum(points, far, a);
    let r = fan.count - 1;
    reflected(p, q, EXTRAPOLATED_SHARES / r)
}

// The same on all axes.
pub fn extrapolated_from(points: &[i32], faces: &[u32], s: usize, fan: &Fan) -> Exact
    requires points { Points faces.now points.now × OpenFan faces.now s fan.now × FanIn points.now fan.now }
    ensures { OnAxes (extrapolated_on faces.now points.now s) result.x result.y result.z }
{
    coordinates::on_axes(|a| extrapolated_on(points, faces, s, fan, a))
}

// The extrapolated point of the vertex that the boundary half-edge s leaves.
pub fn extrapolated_point(points: &[i32], mesh: Mesh, s: usize) -> Exact
    requires ready { Ready mesh.faces.now mesh.work.now }
    requires points { Points mesh.faces.now points.now × OnBoundary quads mesh.faces.now s }
    ensures { OnAxes (extrapolated_on mesh.entry.faces.now points.now s) result.x result.y result.z }
{
    let mut fan = Fan::default();
    gather(mesh, s, &mut fan);
    extrapolated_from(points, mesh.faces, s, &fan)
}
