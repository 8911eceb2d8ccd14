// Refusals 10 to 12, found with mates built and vertices counted: faces round a vertex that form neither a ring nor a fan, valences, marks inside.
#![tactic(auto)]

ghost use Rattle.std.specs.Prelude.{◌≡◌, ◌<◌, length};
ghost use Rattle.search.specs.Found.{Found};
ghost use Rattle.search.specs.Search.{first};
ghost use Rattle.refusals.specs.Refusals.{isolated, non_manifold, bad_valence, marked_ring};
ghost use Rattle.polygons.specs.Polygons.{shape_of};

use vertexcounts::CountedVertices;

// 10 at the vertex p: its faces form neither one full ring nor one open fan.
fn non_manifold(vertices: CountedVertices, p: usize) -> bool
    requires joined { first (isolated vertices.mesh.faces.now) vertices.count ≡ vertices.count }
    requires p_lt_count { p < vertices.count }
    ensures { result ≡ non_manifold (shape_of vertices.entry.mesh.sides.now) vertices.entry.mesh.faces.now p }
{
    let h = vertices.start(p);
    let d = vertices.valence(p);
    !adjacency::meets_all(vertices.mesh, h, d)
}

// 11 at the vertex p: a ring of fewer than 3 or more than 8 faces, or a fan of more than 6.
fn bad_valence(vertices: CountedVertices, p: usize) -> bool
    requires { p < vertices.count }
    ensures { result ≡ bad_valence (shape_of vertices.entry.mesh.sides.now) vertices.entry.mesh.faces.now p }
{
    let m = vertices.valence(p);
    if vertices.is_open(p) {
        return bounds::MAX_FAN < m;
    }
    m < bounds::MIN_RING || bounds::MAX_RING < m
}

// 12 at the vertex p: mark 1 on a full ring.
fn marked_ring(vertices: CountedVertices, marks: &[u8], p: usize) -> bool
    requires count { vertices.count ≡ length marks.now }
    requires p_lt_count { p < vertices.count }
    ensures { result ≡ marked_ring (shape_of vertices.entry.mesh.sides.now) vertices.entry.mesh.faces.now marks.now p }
{
    marks[p] == 1 && !vertices.is_open(p)
}

// The first vertex with refusal 10.
pub fn first_non_manifold(vertices: CountedVertices) -> Option<usize>
    requires { first (isolated vertices.mesh.faces.now) vertices.count ≡ vertices.count }
    ensures { Found (non_manifold (shape_of vertices.entry.mesh.sides.now) vertices.entry.mesh.faces.now) vertices.entry.count result }
{
    (0..vertices.count).find(|p| non_manifold(vertices, *p))
}

// The first vertex with refusal 11.
pub fn first_bad_valence(vertices: CountedVertices) -> Option<usize>
    ensures { Found (bad_valence (shape_of vertices.entry.mesh.sides.now) vertices.entry.mesh.faces.now) vertices.entry.count result }
{
    (0..vertices.count).find(|p| bad_valence(vertices, *p))
}

// The first vertex with refusal 12.
pub fn first_marked_ring(vertices: CountedVertices, marks: &[u8]) -> Option<usize>
    requires { vertices.count ≡ length marks.now }
    ensures { Found (marked_ring (shape_of vertices.entry.mesh.sides.now) vertices.entry.mesh.faces.now marks.now) vertices.entry.count result }
{
    (0..vertices.count).find(|p| marked_ring(vertices, marks, *p))
}
