// The chains of the half-edges that leave each vertex, and the mates, built in the caller's work table; what is found along the chains and by turning from
// mate to mate.
#![tactic(auto)]

ghost use Rattle.std.specs.Prelude.{◌≡◌, ◌*◌, ◌≤◌, ◌<◌, length, get_or, drop, eqb};
ghost use Rattle.search.specs.Found.{Found};
ghost use Rattle.search.specs.Search.{first};
ghost use Rattle.topology.specs.HalfEdge.{mate};
ghost use Rattle.topology.specs.Vertex.{faces_met};
ghost use Rattle.refusals.specs.Refusals.{isolated};
ghost use Rattle.polygons.specs.Polygons.{shape_of};
ghost use Rattle.halfedges.specs.Tables.{MateTableOf};
ghost use Rattle.tables.specs.Tables.{SameOutside};
ghost use Rattle.adjacency.specs.Chains.{side, Tables, Chained, Adjacency};

use sidetable::PolygonMesh;

// Makes every chain empty.
fn clear_chains(faces: &[u32], sides: &[u8], work: &mut [u32])
    requires { Tables sides.now faces.now work.old }
    ensures chained { Chained faces.now work.new (length faces.now) }
    ensures same_outside { SameOutside (length faces.now) (2 * length faces.now) work.old work.new }
{
    let n = faces.len();
    work[n..2 * n].fill(n as u32);
}

// Builds the chains: each half-edge, from the last to the first, goes to the front of the chain of its vertex.
pub fn build_chains(faces: &[u32], sides: &[u8], work: &mut [u32])
    requires { Tables sides.now faces.now work.old }
    ensures chained { Chained faces.now work.new 0 }
    ensures same_outside { SameOutside (length faces.now) (3 * length faces.now) work.old work.new }
{
    clear_chains(faces, sides, &mut *work);
    let n = faces.len();
    for h in (0..n).rev() {
        let a = faces[h] as usize;
        work[2 * n + h] = work[n + a];
        work[n + a] = h as u32;
    }
}

// The vertex that the half-edge g enters.
#[tactic(auto, using(crate::proofs::Chains::next_within))]
pub fn entered(faces: &[u32], sides: &[u8], work: &[u32], g: usize) -> usize
    requires tables { Tables sides.now faces.now work.now }
    requires g_in_bounds { g < length faces.now }
    ensures { result ≡ get_or faces.now ((shape_of sides.now).next g) 0 }
{
    faces[sidetable::next_in(sides, work, faces.len(), g)] as usize
}

// The first half-edge from the vertex a to the vertex b, or the number of half-edges.
fn find_side(faces: &[u32], sides: &[u8], work: &[u32], a: usize, b: usize) -> usize
    requires tables { Tables sides.now faces.now work.now }
    requires chained { Chained faces.now work.now 0 }
    requires a_in_bounds { a < length faces.now }
    ensures { result ≡ first (side (shape_of sides.now) faces.now a b) (length faces.now) }
{
    let n = faces.len();
    let mut g = work[n + a] as usize;
    while g < n {
        if entered(faces, sides, work, g) == b {
            return g;
        }
        g = work[2 * n + g] as usize;
    }
    g
}

// The mate of h, or the number of half-edges.
fn find_mate(faces: &[u32], sides: &[u8], work: &[u32], h: usize) -> usize
    requires tables { Tables sides.now faces.now work.now }
    requires chained { Chained faces.now work.now 0 }
    requires h_in_bounds { h < length faces.now }
    ensures { result ≡ mate (shape_of sides.now) faces.now h }
{
    let a = entered(faces, sides, work, h);
    find_side(faces, sides, work, a, faces[h] as usize)
}

// Writes the mate of each half-edge; the chains must be there and stay.
pub fn build_mates(faces: &[u32], sides: &[u8], work: &mut [u32])
    requires tables { Tables sides.now faces.now work.old }
    requires chained { Chained faces.now work.old 0 }
    ensures adjacency { Adjacency sides.now faces.now work.new }
    ensures work_unchanged { drop (length faces.now) work.new ≡ drop (length faces.now) work.old }
{
    let n = faces.len();
    for h in 0..n {
        work[h] = find_mate(faces, sides, &*work, h) as u32;
    }
}

// Builds the chains and the mates of the half-edges.
pub fn link_faces(faces: &[u32], sides: &[u8], work: &mut [u32])
    requires { Tables sides.now faces.now work.old }
    ensures mate_table_of { MateTableOf (shape_of sides.now) faces.now work.new }
    ensures work_unchanged { drop (3 * length faces.now) work.new ≡ drop (3 * length faces.now) work.old }
{
    build_chains(faces, sides, &mut *work);
    build_mates(faces, sides, &mut *work);
}

// The first of nv vertices that no half-edge leaves. The chains must be there.
pub fn first_empty(faces: &[u32], sides: &[u8], nv: usize, work: &[u32]) -> Option<usize>
    requires tables { Tables sides.now faces.now work.now }
    requires chained { Chained faces.now work.now 0 }
    requires nv_in_bounds { nv ≤ length faces.now }
    ensures { Found (isolated faces.now) nv result }
{
    let n = faces.len();
    let heads = &work[n..n + nv];
    heads.iter().position(|g| *g as usize == n)
}

// Whether turning from h meets d faces. It takes at most d turns.
pub fn meets_all(mesh: PolygonMesh, h: usize, d: u16) -> bool
    requires { (h < length mesh.faces.now) × (d ≤ length mesh.faces.now) }
    ensures { result ≡ eqb (faces_met (shape_of mesh.entry.sides.now) mesh.entry.faces.now h) d }
{
    let n = mesh.faces.len();
    let mut g = h;
    for k in 0..d {
        g = mesh.turn(g);
        if g == n || g == h {
            return k + 1 == d;
        }
    }
    false
}
