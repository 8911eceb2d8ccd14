// The exact point on any edge, on the caller's tables.
#![tactic(auto)]

ghost use Rattle.std.specs.Prelude.{◌≡◌, ℕ, ◌≤◌, ◌<◌, pos, ◌*ℤ◌, length};
ghost use Rattle.integers.specs.Within.{Within};
ghost use Rattle.curve.specs.Weights.{tension};
ghost use Rattle.rings.specs.Scales.{virtual_scale, coordinate_range, virtual_range};
ghost use Rattle.rules.specs.Numerators.{inner_edge_z};
ghost use Rattle.topology.specs.Shape.{quads};
ghost use Rattle.topology.specs.HalfEdge.{from, to, mate};
ghost use Rattle.topology.specs.Boundary.{OnBoundary};
ghost use Rattle.scheme.specs.Points.{inner_rule};
ghost use Rattle.nets.specs.Net.{axis};
ghost use Rattle.schemelaws.specs.Ordinary.{Ordinary, OrdinaryEnds, ordinary_value};
ghost use Rattle.schemelaws.specs.Numerators.{virtual_at_z, edge_value_z, edge_z};
ghost use Rattle.walks.specs.Ready.{Ready};
ghost use Rattle.coordinates.specs.Points.{InTable, Points, Marks, OnAxes, Bounded, on};
ghost use Rattle.edgeentries.specs.Entry.{wide_flag, boundary_flag};
ghost use Rattle.coordinates.specs.Stencil.{FarIn, stencil_value};
ghost use Rattle.edgepoints.specs.Kind.{flag_of};
ghost use Rattle.exactedges.specs.Edge.{far_before, far_after, far_on, StraightFar, ClassedCorners, ClassedEnds, Flagged, ExactPoint};

use classes::Classes;
use coordinates::Exact;
use halfedges::Mesh;

// The far point before the start of the boundary half-edge h, none if the start is marked.
fn far_before(mesh: Mesh, marks: &[u8], h: usize) -> Option<usize>
    requires ready { Ready mesh.faces.now mesh.work.now }
    requires on_boundary { OnBoundary quads mesh.faces.now h × (from mesh.faces.now h < length marks.now) }
    ensures { result ≡ far_before mesh.entry.faces.now marks.now h }
{
    if edgerules::is_marked(marks, mesh.start_of(h)) {
        return None;
    }
    Some(mesh.start_of(walks::back(&mesh, h)))
}

// The far point after its end, none if the end is marked.
fn far_after(mesh: Mesh, marks: &[u8], h: usize) -> Option<usize>
    requires ready { Ready mesh.faces.now mesh.work.now }
    requires on_boundary { OnBoundary quads mesh.faces.now h × (to quads mesh.faces.now h < length marks.now) }
    ensures { result ≡ far_after mesh.entry.faces.now marks.now h }
{
    if edgerules::is_marked(marks, mesh.end_of(h)) {
        return None;
    }
    Some(mesh.end_of(walks::along(&mesh, h)))
}

// How the exact point of an edge is kept: over the scale, over `edge_scale`, or over the scale on the boundary.
#[derive(Clone, Copy)]
pub enum EdgeKind {
    Plain,
    Wide,
    Boundary,
}

impl EdgeKind {
    // The flag in the entries of such edges.
    pub fn flag(self) -> u32
        ensures { result ≡ flag_of self }
    {
        match self {
            EdgeKind::Plain => 0,
            EdgeKind::Wide => edgeentries::WIDE,
            EdgeKind::Boundary => edgeentries::BOUNDARY,
        }
    }
}

// The exact point of an edge, and how it is kept.
#[derive(Clone, Copy)]
pub struct Edge {
    pub point: Exact,
    pub kind: EdgeKind,
}

// The point on the boundary edge of h between the far points o and r.
fn boundary_edge(
    points: &[i32],
    mesh: Mesh,
    h: usize,
    o: Option<usize>,
    r: Option<usize>,
    t: u32,
) -> Edge
    requires h_in_bounds { (h < length mesh.faces.now) × Within coordinate_range points.now }
    requires far_in { FarIn points.now o × InTable points.now (from mesh.faces.now h) × InTable points.now (to quads mesh.faces.now h) × FarIn points.now r × (t ≤ 4) }
    ensures { (flag_of result.kind ≡ boundary_flag) × OnAxes (λ (a : ℕ). stencil_value (tension t) (axis points.now a) o (from mesh.entry.faces.now h) (to quads mesh.entry.faces.now h) r) result.point.x result.point.y result.point.z }
{
    let p = mesh.start_of(h);
    let q = mesh.end_of(h);
    Edge {
        point: coordinates::stencil_exact(points, o, p, q, r, t),
        kind: EdgeKind::Boundary,
    }
}

// What lies straight across the ordinary vertex that the inner half-edge h leaves: with g the mate of the side before h, the start of the side before g.
fn straight_far(mesh: Mesh, h: usize) -> Option<usize>
    requires ready { Ready mesh.faces.now mesh.work.now }
    requires h_in_bounds { (h < length mesh.faces.now) × (mate quads mesh.faces.now h < length mesh.faces.now) × Ordinary mesh.faces.now (from mesh.faces.now h) }
    ensures { StraightFar mesh.entry.faces.now h result }
{
    let g = mesh.turn(h);
    if g < mesh.half_edges() {
        return Some(mesh.corner_before(g));
    }
    None
}

// The point on the inner edge of h, whose mate is m, beside the boundary: one of its ordinary ends at least is a boundary vertex.
fn sided_exact(points: &[i32], mesh: Mesh, h: usize, m: usize, t: u32) -> Exact
    requires ready { Ready mesh.faces.now mesh.work.now }
    requires points { Points mesh.faces.now points.now × OrdinaryEnds mesh.faces.now h × (m ≡ mate quads mesh.faces.now h) × (t ≤ 4) }
    ensures { OnAxes (λ (a : ℕ). ordinary_value (tension t) mesh.entry.faces.now (axis points.now a) h inner_rule) result.x result.y result.z }
{
    let p = mesh.start_of(h);
    let q = mesh.end_of(h);
    let o = straight_far(mesh, h);
    let r = straight_far(mesh, m);
    coordinates::stencil_exact(points, o, p, q, r, t)
}

// The point on the inner edge of h, whose mate is m, between ordinary vertices. Where both have full rings, far points are at hand: the common case.
fn plain_exact(points: &[i32], mesh: Mesh, h: usize, m: usize, t: u32) -> Exact
    requires ready { Ready mesh.faces.now mesh.work.now }
    requires points { Points mesh.faces.now points.now × OrdinaryEnds mesh.faces.now h × (m ≡ mate quads mesh.faces.now h) × (t ≤ 4) }
    ensures { OnAxes (λ (a : ℕ). ordinary_value (tension t) mesh.entry.faces.now (axis points.now a) h inner_rule) result.x result.y result.z }
{
    let n = mesh.half_edges();
    let a = mesh.turn(h);
    let b = mesh.turn(m);
    if a < n && b < n {
        let o = mesh.corner_before(a);
        let p = mesh.start_of(h);
        let q = mesh.end_of(h);
        let r = mesh.corner_before(b);
        return coordinates::interior_exact(points, o, p, q, r, t);
    }
    sided_exact(points, mesh, h, m, t)
}

// Coordinate a of vertex v, over the denominator of virtual points.
fn scaled(points: &[i32], v: usize, a: usize, t: u32) -> i64
    requires { (a < 3) × InTable points.now v × Within coordinate_range points.now × (t ≤ 4) }
    ensures { result ≡ pos (virtual_scale (tension t)) *ℤ axis points.now a v }
{
    rings::virtual_scale(t) * coordinates::coordinate(points, v, a)
}

// The far point f beyond p, over the same denominator; q is the other near point.
fn scaled_far(points: &[i32], f: Option<usize>, p: usize, q: usize, a: usize, t: u32) -> i64
    requires within { Within coordinate_range points.now }
    requires a_bound { (a < 3) × FarIn points.now f × InTable points.now p × InTable points.now q × (t ≤ 4) }
    ensures { result ≡ pos (virtual_scale (tension t)) *ℤ far_on (axis points.now a) f p q }
{
    let x = coordinates::coordinate(points, p, a);
    let y = coordinates::coordinate(points, q, a);
    rings::virtual_scale(t) * coordinates::far_on(points, f, x, y, a)
}

// The virtual point at the ordinary vertex that the inner half-edge h leaves, on its edge: what lies straight across.
fn straight_virtual(points: &[i32], mesh: Mesh, h: usize, t: u32) -> Exact
    requires ready { Ready mesh.faces.now mesh.work.now }
    requires points { Points mesh.faces.now points.now }
    requires h_in_bounds { (h < length mesh.faces.now) × (mate quads mesh.faces.now h < length mesh.faces.now) × Ordinary mesh.faces.now (from mesh.faces.now h) × (t ≤ 4) }
    ensures { OnAxes (λ (a : ℕ). virtual_at_z (tension t) mesh.entry.faces.now (axis points.now a) h) result.x result.y result.z }
{
    let p = mesh.start_of(h);
    let q = mesh.end_of(h);
    let f = straight_far(mesh, h);
    coordinates::on_axes(|a| scaled_far(points, f, p, q, a, t))
}

// The virtual point at the vertex that the inner half-edge h leaves, on its edge.
fn end_virtual(points: &[i32], mesh: Mesh, classes: Classes, h: usize, t: u32) -> Exact
    requires ready { Ready mesh.faces.now mesh.work.now }
    requires points { Points mesh.faces.now points.now × ClassedCorners classes.at classes.initial mesh.faces.now mesh.work.now }
    requires h_in_bounds { (h < length mesh.faces.now) × (mate quads mesh.faces.now h < length mesh.faces.now) × (t ≤ 4) }
    ensures { OnAxes (λ (a : ℕ). virtual_at_z (tension t) mesh.entry.faces.now (axis points.now a) h) result.x result.y result.z }
{
    if classes.is_ordinary(mesh.work, mesh.start_of(h)) {
        return straight_virtual(points, mesh, h, t);
    }
    virtualpoints::virtual_point(points, mesh, h, t)
}

// Coordinate a of the point between p and q, from the virtual points u and w.
fn wide_on(points: &[i32], p: usize, q: usize, u: Exact, w: Exact, a: usize, t: u32) -> i64
    requires a_bound { (a < 3) × InTable points.now p × InTable points.now q × Within coordinate_range points.now }
    requires u_bound { Bounded (virtual_range (tension t)) u × Bounded (virtual_range (tension t)) w × (t ≤ 4) }
    ensures { result ≡ inner_edge_z (tension t) (axis points.now a p) (axis points.now a q) (on u a) (on w a) }
{
    let x = scaled(points, p, a, t);
    let y = scaled(points, q, a, t);
    curve::four_point(u.on(a), x, y, w.on(a), t)
}

// The point on the inner edge of h, whose mate is m, from its two virtual points.
fn wide_edge(points: &[i32], mesh: Mesh, classes: Classes, h: usize, m: usize, t: u32) -> Edge
    requires ready { Ready mesh.faces.now mesh.work.now }
    requires points { Points mesh.faces.now points.now × ClassedCorners classes.at classes.initial mesh.faces.now mesh.work.now }
    requires h_in_bounds { (h < length mesh.faces.now) × (m ≡ mate quads mesh.faces.now h) × (m < length mesh.faces.now) × (t ≤ 4) }
    ensures { (flag_of result.kind ≡ wide_flag) × OnAxes (λ (a : ℕ). edge_value_z (tension t) mesh.entry.faces.now (axis points.now a) h inner_rule) result.point.x result.point.y result.point.z }
{
    let p = mesh.start_of(h);
    let q = mesh.end_of(h);
    let u = end_virtual(points, mesh, classes, h, t);
    let w = end_virtual(points, mesh, classes, m, t);
    Edge {
        point: coordinates::on_axes(|a| wide_on(points, p, q, u, w, a, t)),
        kind: EdgeKind::Wide,
    }
}

// Whether both ends of h are ordinary.
fn ordinary_ends(mesh: Mesh, classes: Classes, h: usize) -> bool
    requires ready { Ready mesh.faces.now mesh.work.now }
    requires classed_corners { ClassedCorners classes.at classes.initial mesh.faces.now mesh.work.now × (h < length mesh.faces.now) }
    ensures { ClassedEnds mesh.entry.faces.now h result }
{
    classes.is_ordinary(mesh.work, mesh.start_of(h))
        && classes.is_ordinary(mesh.work, mesh.end_of(h))
}

// The point on the inner edge of h, whose mate is m.
fn inner_edge(points: &[i32], mesh: Mesh, classes: Classes, h: usize, m: usize, t: u32) -> Edge
    requires ready { Ready mesh.faces.now mesh.work.now }
    requires points { Points mesh.faces.now points.now × ClassedCorners classes.at classes.initial mesh.faces.now mesh.work.now }
    requires h_in_bounds { (h < length mesh.faces.now) × (m ≡ mate quads mesh.faces.now h) × (m < length mesh.faces.now) × (t ≤ 4) }
    ensures { Flagged mesh.entry.faces.now h (flag_of result.kind) × ExactPoint (tension t) (flag_of result.kind) (λ (a : ℕ). edge_value_z (tension t) mesh.entry.faces.now (axis points.now a) h inner_rule) result.point.x result.point.y result.point.z }
{
    if ordinary_ends(mesh, classes, h) {
        return Edge {
            point: plain_exact(points, mesh, h, m, t),
            kind: EdgeKind::Plain,
        };
    }
    wide_edge(points, mesh, classes, h, m, t)
}

// The point on the edge of h, whose mate is m or none.
pub fn edge_exact(
    points: &[i32],
    mesh: Mesh,
    marks: &[u8],
    classes: Classes,
    h: usize,
    m: usize,
    t: u32,
) -> Edge
    requires ready { Ready mesh.faces.now mesh.work.now }
    requires points { Points mesh.faces.now points.now × Marks mesh.faces.now marks.now × ClassedCorners classes.at classes.initial mesh.faces.now mesh.work.now }
    requires h_in_bounds { (h < length mesh.faces.now) × (m ≡ mate quads mesh.faces.now h) × (t ≤ 4) }
    ensures { Flagged mesh.entry.faces.now h (flag_of result.kind) × ExactPoint (tension t) (flag_of result.kind) (λ (a : ℕ). edge_z (tension t) mesh.entry.faces.now marks.now (axis points.now a) h) result.point.x result.point.y result.point.z }
{
    if m < mesh.half_edges() {
        return inner_edge(points, mesh, classes, h, m, t);
    }
    let o = far_before(mesh, marks, h);
    let r = far_after(mesh, marks, h);
    boundary_edge(points, mesh, h, o, r, t)
}
