// One edge of a family in the pass over the edges: met before, or new and made by four vertices in line.
#![tactic(auto)]

ghost use Rattle.std.specs.Prelude.{◌≡◌, ◌+◌, ◌<◌, length};
ghost use Rattle.topology.specs.Shape.{quads};
ghost use Rattle.topology.specs.HalfEdge.{mate};
ghost use Rattle.familylines.specs.Steps.{Going, Carries, Line, FirstHalf, LastHalf};

// The edge of h is new, number `edges`: makes its point by the vertices o, p, q, r in line.
pub fn make_edge(
    points: &mut [i32],
    faces: &[u32],
    marks: &[u8],
    work: &mut [u32],
    h: usize,
    edges: usize,
    o: usize,
    p: usize,
    q: usize,
    r: usize,
    t: u32,
) -> usize
    requires { Going t faces.now marks.now points.old work.old h edges × Line faces.now h o p q r }
    ensures { Carries t faces.now marks.now h edges (h + 1) result points.old work.old points.new work.new }
{
    let n = faces.len();
    let v = marks.len();
    let end = 3 * v;
    let e = coordinates::interior_exact(&points[..end], o, p, q, r, t);
    let x = edgerounding::rounded_plain(e.x);
    let y = edgerounding::rounded_plain(e.y);
    let z = edgerounding::rounded_plain(e.z);
    coordinates::put_point(&mut *points, v + edges, x, y, z);
    edgeentries::store_edge(&mut *work, n, h, edges, 0, e);
    edges + 1
}

// The edge of h was met before, at its mate m.
pub fn pass_edge(
    points: &mut [i32],
    faces: &[u32],
    marks: &[u8],
    work: &mut [u32],
    h: usize,
    edges: usize,
    m: usize,
    t: u32,
) -> usize
    requires { Going t faces.now marks.now points.old work.old h edges × (m ≡ mate quads faces.now h) × (m < h) × (h < length faces.now) }
    ensures { Carries t faces.now marks.now h edges (h + 1) result points.old work.old points.new work.new }
{
    let n = faces.len();
    edgeentries::copy_entry(&mut *work, n, m, h);
    edges
}

// The first half of a side of a plain family from f on, from c to e, where the side goes on to d.
pub fn first_half(
    points: &mut [i32],
    faces: &[u32],
    marks: &[u8],
    work: &mut [u32],
    f: usize,
    h: usize,
    edges: usize,
    c: usize,
    e: usize,
    d: usize,
    t: u32,
) -> usize
    requires { Going t faces.now marks.now points.old work.old h edges × FirstHalf faces.now f h c e d }
    ensures { Carries t faces.now marks.now h edges (h + 1) result points.old work.old points.new work.new }
{
    let m = halfedges::mate_side(faces, &*work, h);
    if m < f {
        return pass_edge(&mut *points, faces, marks, &mut *work, h, edges, m, t);
    }
    let y = halfedges::mate_side(faces, &*work, h + 3);
    let o = halfedges::start_of(faces, y + 3);
    make_edge(
        &mut *points,
        faces,
        marks,
        &mut *work,
        h,
        edges,
        o,
        c,
        e,
        d,
        t,
    )
}

// The second half h of a side from c by e to d.
pub fn last_half(
    points: &mut [i32],
    faces: &[u32],
    marks: &[u8],
    work: &mut [u32],
    f: usize,
    h: usize,
    edges: usize,
    c: usize,
    e: usize,
    d: usize,
    t: u32,
) -> usize
    requires { Going t faces.now marks.now points.old work.old h edges × LastHalf faces.now f h c e d }
    ensures { Carries t faces.now marks.now h edges (h + 1) result points.old work.old points.new work.new }
{
    let m = halfedges::mate_side(faces, &*work, h);
    if m < f {
        return pass_edge(&mut *points, faces, marks, &mut *work, h, edges, m, t);
    }
    let x = halfedges::mate_side(faces, &*work, h - 3);
    let r = halfedges::start_of(faces, x - 2);
    make_edge(
        &mut *points,
        faces,
        marks,
        &mut *work,
        h,
        edges,
        c,
        e,
        d,
        r,
        t,
    )
}
