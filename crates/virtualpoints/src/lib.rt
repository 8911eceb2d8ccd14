// Virtual points on the caller's tables, on all axes.
#![tactic(auto)]

ghost use Rattle.std.specs.Prelude.{ℕ, ◌≤◌, ◌<◌, length};
ghost use Rattle.integers.specs.Within.{Within};
ghost use Rattle.curve.specs.Weights.{tension};
ghost use Rattle.rings.specs.RingWeights.{row};
ghost use Rattle.rings.specs.Scales.{coordinate_range, extrapolated_range};
ghost use Rattle.topology.specs.Shape.{quads};
ghost use Rattle.topology.specs.HalfEdge.{from, mate};
ghost use Rattle.topology.specs.Boundary.{boundary_from};
ghost use Rattle.nets.specs.Net.{axis};
ghost use Rattle.walks.specs.Ready.{Ready};
ghost use Rattle.coordinates.specs.Points.{InTable, Points, OnAxes, Bounded, on};
ghost use Rattle.ringsums.specs.Sums.{FanIn, weighted_sum, ring_sum, fan_on};
ghost use Rattle.virtualpoints.specs.Virtual.{virtual_on};

use coordinates::Exact;
use halfedges::Mesh;
use ringsums::Fan;

// The virtual point on the first edge of a full ring.
fn ring_point(points: &[i32], ring: &Fan, t: u32) -> Exact
    requires within { Within coordinate_range points.now × (3 ≤ ring.now.count) × (ring.now.count ≤ 8) × (t ≤ 4) }
    requires fan_in { FanIn points.now ring.now }
    ensures { OnAxes (λ (a : ℕ). ring_sum ring.now.count (weighted_sum (row (tension t) ring.now.count) ring.now.count 0 ring.now.count (axis points.now a) ring.now.neighbours ring.now.opposites)) result.x result.y result.z }
{
    let n = ring.count as usize;
    let w = rings::weights(n, t);
    let s = ringsums::weighted_sum(points, &w, ring, n, 0);
    s.map(|v| ringsums::scaled_share(n, v))
}

// The virtual point on edge j of an open fan, c being its last neighbour, and p, q and r the extrapolated points of its vertex, of c and of its first neighbour.
fn fan_sum(
    points: &[i32],
    fan: &Fan,
    j: usize,
    c: usize,
    p: Exact,
    q: Exact,
    r: Exact,
    t: u32,
) -> Exact
    requires within { Within coordinate_range points.now × (0 < j) × (j < fan.now.count) × (fan.now.count ≤ 6) × InTable points.now c × (t ≤ 4) }
    requires fan_in { FanIn points.now fan.now }
    requires extrapolated { Bounded extrapolated_range p × Bounded extrapolated_range q × Bounded extrapolated_range r }
    ensures { OnAxes (λ (a : ℕ). fan_on (tension t) (axis points.now a) fan.now.neighbours fan.now.opposites fan.now.count j c (on p a) (on q a) (on r a)) result.x result.y result.z }
{
    let n = fan.count as usize + 2;
    let place = fan.count as usize - j;
    let w = rings::weights(n, t);
    let s = ringsums::weighted_sum(points, &w, fan, n, n - j);
    coordinates::on_axes(|a| ringsums::closed_on(points, &w, n, place, s, c, p, q, r, a))
}

// The virtual point at a boundary vertex, on the inner edge of h.
fn fan_point(points: &[i32], mesh: Mesh, h: usize, t: u32) -> Exact
    requires ready { Ready mesh.faces.now mesh.work.now }
    requires points { Points mesh.faces.now points.now × (h < length mesh.faces.now) × (mate quads mesh.faces.now h < length mesh.faces.now) × (t ≤ 4) }
    requires h_in_bounds { boundary_from quads mesh.faces.now (from mesh.faces.now h) < length mesh.faces.now }
    ensures { OnAxes (virtual_on (tension t) mesh.entry.faces.now points.now h) result.x result.y result.z }
{
    let f = walks::fan_start(mesh, h);
    let s = f.side;
    let mut fan = Fan::default();
    extrapolation::gather(mesh, s, &mut fan);
    let e = halfedges::prev_side(fan.last);
    let d = walks::along(&mesh, s);
    let c = mesh.start_of(e);
    let p = extrapolation::extrapolated_from(points, mesh.faces, s, &fan);
    let q = extrapolation::extrapolated_point(points, mesh, e);
    let r = extrapolation::extrapolated_point(points, mesh, d);
    fan_sum(points, &fan, f.place, c, p, q, r, t)
}

// The virtual point at the vertex that h leaves, on the inner edge of h.
pub fn virtual_point(points: &[i32], mesh: Mesh, h: usize, t: u32) -> Exact
    requires ready { Ready mesh.faces.now mesh.work.now }
    requires points { Points mesh.faces.now points.now }
    requires h_in_bounds { (h < length mesh.faces.now) × (mate quads mesh.faces.now h < length mesh.faces.now) × (t ≤ 4) }
    ensures { OnAxes (virtual_on (tension t) mesh.entry.faces.now points.now h) result.x result.y result.z }
{
    let mut fan = Fan::default();
    extrapolation::gather(mesh, h, &mut fan);
    if fan.after == h {
        return ring_point(points, &fan, t);
    }
    fan_point(points, mesh, h, t)
}
