// Two boundary segments compared step by step: one walked in its net, the other given by the vertices that a walk met.
#![tactic(auto)]

ghost use Rattle.std.specs.Prelude.{◌≡◌, ◌+◌, ◌*◌, ◌<◌, length};
ghost use Rattle.bounds.specs.Bounds.{max_vertices};
ghost use Rattle.nets.specs.Drawn.{drawn};
ghost use Rattle.seamtest.specs.SeamTest.{same_axis, same_vertex};
ghost use Rattle.comparison.specs.Walks.{Pair, walks, first_apart, Comparable};

use nets::Net;
use sidetable::PolygonMesh;

// Whether vertex u of one table and vertex v of another agree on an axis.
fn same_axis(a: &[i32], u: usize, b: &[i32], v: usize, axis: usize) -> bool
    requires { (u < max_vertices) × (v < max_vertices) × (axis < 3) × (3 * u + axis < length a.now) × (3 * v + axis < length b.now) }
    ensures { result ≡ same_axis a.now u b.now v axis }
{
    a[3 * u + axis] == b[3 * v + axis]
}

// Whether vertex u of one net and vertex v of another have the same point and the same mark.
fn same_vertex(a: Net<'_>, u: usize, b: Net<'_>, v: usize) -> bool
    requires { Pair a.vertices.now a.marks.now u b.vertices.now b.marks.now v }
    ensures { result ≡ same_vertex a.entry.vertices.now a.entry.marks.now u b.entry.vertices.now b.entry.marks.now v }
{
    let (p, q) = (a.vertices, b.vertices);
    same_axis(p, u, q, v, 0)
        && same_axis(p, u, q, v, 1)
        && same_axis(p, u, q, v, 2)
        && (a.marks[u] == 1) == (b.marks[v] == 1)
}

// The first step at which two walks differ, or one more than the edges of both: the first starts with the half-edge `half`, the second at the vertex `start`, and
// its next e vertices stand in the work table from the place `at` on.
pub fn first_apart(
    a: Net<'_>,
    half: usize,
    b: Net<'_>,
    start: usize,
    work: &[u32],
    at: usize,
    e: usize,
) -> usize
    requires { Comparable (walks (drawn a) half (drawn b) start work.now at) e }
    ensures { result ≡ first_apart (walks (drawn a.entry) half (drawn b.entry) start work.now at) }
{
    let faces = a.faces;
    if !same_vertex(a, faces[half] as usize, b, start) {
        return 0;
    }
    let mesh = PolygonMesh {
        faces,
        sides: a.sides,
        work,
    };
    let mut g = half;
    for k in 0..e {
        g = walks::along(&mesh, g);
        let u = faces[g] as usize;
        let v = work[at + k] as usize;
        if !same_vertex(a, u, b, v) {
            return k + 1;
        }
        // the end of the first segment
        if a.marks[u] == 1 {
            return k + 2;
        }
    }
    e + 1
}
