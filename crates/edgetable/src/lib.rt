// An edge in the tables of a round: it is numbered as it is met, its exact point goes to the work table, its rounded point behind the old ones.
#![tactic(auto)]

ghost use Rattle.edgetable.specs.EdgeTable.{Turn, Turned};

use classes::Classes;
use halfedges::Mesh;

// Makes the point of the edge of half-edge h if the edge is first met there, where `edges` are met before; the answer is how many are met then.
pub fn edge_side(
    points: &mut [i32],
    faces: &[u32],
    marks: &[u8],
    work: &mut [u32],
    at: usize,
    initial: usize,
    h: usize,
    edges: usize,
    t: u32,
) -> usize
    requires { Turn t faces.now marks.now points.old work.old at initial h edges }
    ensures { Turned t faces.now marks.now h edges result points.old work.old points.new work.new }
{
    let n = faces.len();
    let v = marks.len();
    let mesh = Mesh {
        faces,
        work: &*work,
    };
    let m = mesh.mate(h);
    if m < h {
        edgeentries::copy_entry(&mut *work, n, m, h);
        return edges;
    }
    let classes = Classes { at, initial };
    let end = 3 * v;
    let e = edgepoints::edge_exact(&points[..end], mesh, marks, classes, h, m, t);
    edgerounding::put_rounded(&mut *points, v + edges, e, t);
    edgeentries::store_edge(&mut *work, n, h, edges, e.kind.flag(), e.point);
    edges + 1
}
