// The vertices of the split: behind the drawn ones a point for each edge, then one for each face.
#![tactic(auto)]

ghost use Rattle.std.specs.Prelude.{◌≡◌, ◌+◌, length};
ghost use Rattle.topology.specs.HalfEdge.{edge_count};
ghost use Rattle.polygons.specs.Polygons.{shape_of};
ghost use Rattle.tables.specs.Tables.{filled};
ghost use Rattle.sidetable.specs.Table.{Linked};
ghost use Rattle.splitvertices.specs.Passes.{Splittable, split_vertices, Made, SplitTurn, SplitTurned};

use sidetable::PolygonMesh;

// Makes the midpoint of the edge of half-edge h if the edge is first met there, where `edges` are met before; the answer is how many are met then.
fn edge_side(points: &mut [i32], mesh: PolygonMesh, v: usize, h: usize, edges: usize) -> usize
    requires { SplitTurn mesh.sides.now mesh.faces.now mesh.work.now v points.old h edges }
    ensures { SplitTurned mesh.entry.sides.now mesh.entry.faces.now v h edges result points.old points.new }
{
    let faces = mesh.faces;
    if h < mesh.mate(h) {
        let next = sidetable::next_in(mesh.sides, mesh.work, faces.len(), h);
        let p = halfedges::start_of(faces, h);
        let q = halfedges::start_of(faces, next);
        splitpoints::put_midpoint(&mut *points, v + edges, p, q);
        return edges + 1;
    }
    edges
}

// Makes the midpoints of all edges; the answer is their number.
fn edge_points(points: &mut [i32], mesh: PolygonMesh, v: usize) -> usize
    requires { Splittable mesh.sides.now mesh.faces.now v points.old }
    ensures value { result ≡ edge_count (shape_of mesh.entry.sides.now) mesh.entry.faces.now }
    ensures made { Made mesh.entry.sides.now mesh.entry.faces.now v points.old points.new (v + result) }
{
    let mut edges = 0;
    for h in 0..mesh.faces.len() {
        edges = edge_side(&mut *points, mesh, v, h, edges);
    }
    edges
}

// Makes the means of the corners of all faces, behind v vertices and the midpoints of the edges.
fn face_points(points: &mut [i32], faces: &[u32], sides: &[u8], v: usize, edges: usize)
    requires splittable { Splittable sides.now faces.now v points.old }
    requires edges_value { edges ≡ edge_count (shape_of sides.now) faces.now }
    requires made { Made sides.now faces.now v points.old points.old (v + edges) }
    ensures { Made sides.now faces.now v points.old points.new (v + edges + length sides.now) }
{
    let first = v + edges;
    let mut a = 0;
    for f in 0..sides.len() {
        let c = sides[f] as usize;
        splitpoints::put_mean(&mut *points, faces, first + f, a, c);
        a += c;
    }
}

// Makes the new points of the split.
pub fn new_points(points: &mut [i32], faces: &[u32], sides: &[u8], work: &[u32], v: usize)
    requires splittable { Splittable sides.now faces.now v points.old }
    requires linked { Linked sides.now faces.now work.now }
    ensures { points.new ≡ filled (split_vertices sides.now faces.now v points.old) points.old }
{
    let mesh = PolygonMesh { faces, sides, work };
    let edges = edge_points(&mut *points, mesh, v);
    face_points(&mut *points, faces, sides, v, edges);
}
