// One round's topology on the caller's tables, in place: refined faces and refined marks.
#![tactic(auto)]

ghost use Rattle.std.specs.Prelude.{◌≡◌, ◌+◌, ◌*◌, ◌^◌, ◌≤◌, ◌<◌, length};
ghost use Rattle.tables.specs.Tables.{filled, Written};
ghost use Rattle.edgeentries.specs.Entry.{entry_of, edge_of};
ghost use Rattle.roundfaces.specs.Faces.{refined_by, FaceIn, extended};

// The vertex on the edge of side i of a face whose side 0 is h, where `first` is the vertex of edge 0.
fn edge_vertex(work: &[u32], n: usize, first: u32, h: usize, i: usize) -> u32
    requires { (n + h + i < length work.now) × (first + edge_of (entry_of n work.now (h + i)) < 2 ^ 32) }
    ensures { result ≡ first + edge_of (entry_of n work.now (h + i)) }
{
    first + edgeentries::number_of(edgeentries::side_entry(work, n, h, i)) as u32
}

// Writes the refined faces of face f, the last first, from the corners a to d of the face and the points p to s of its sides.
pub fn refine_face(faces: &mut [u32], work: &[u32], n: usize, v: usize, edges: usize, f: usize)
    requires { FaceIn n v edges f faces.old work.now }
    ensures { Written (16 * f) (16 * f + 16) (refined_by n v edges faces.old work.now) faces.old faces.new }
{
    let h = 4 * f;
    let at = 16 * f;
    let first = v as u32;
    let point = (v + edges + f) as u32;
    let p = edge_vertex(work, n, first, h, 0);
    let q = edge_vertex(work, n, first, h, 1);
    let r = edge_vertex(work, n, first, h, 2);
    let s = edge_vertex(work, n, first, h, 3);
    let a = faces[h];
    let b = faces[h + 1];
    let c = faces[h + 2];
    let d = faces[h + 3];
    tables::put_four(&mut *faces, at + 12, d, s, point, r);
    tables::put_four(&mut *faces, at + 8, c, r, point, q);
    tables::put_four(&mut *faces, at + 4, b, q, point, p);
    tables::put_four(&mut *faces, at, a, p, point, s);
}

// Extends the marks of v vertices by 0, to `count` marks.
pub fn extend_marks(marks: &mut [u8], v: usize, count: usize)
    requires { (v ≤ count) × (count ≤ length marks.old) }
    ensures { marks.new ≡ filled (extended v count marks.old) marks.old }
{
    marks[v..count].fill(0);
}
