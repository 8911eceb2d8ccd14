// The edges of a family, in a net that a round made. Where the face that was split has mates on its four sides and ordinary corners, every edge of the family lies on a line of
// vertices with fixed places: it takes no walk and no test of its own.
#![tactic(auto)]

ghost use Rattle.std.specs.Prelude.{◌≡◌, true, ℕ, ◌+◌, ◌-◌, ◌*◌, ◌≤◌, ◌<◌, length};
ghost use Rattle.topology.specs.Shape.{quads};
ghost use Rattle.topology.specs.HalfEdge.{from, mate};
ghost use Rattle.schemelaws.specs.Ordinary.{Ordinary};
ghost use Rattle.halfedges.specs.Tables.{Connectivity};
ghost use Rattle.exactedges.specs.Edge.{ClassedCorners};
ghost use Rattle.familylines.specs.Steps.{Going, Carries};
ghost use Rattle.familysteps.specs.Family.{FamilyOf};
ghost use Rattle.familyedges.specs.PlainFamily.{FamilyTest, PlainFamily};

use familysteps::Family;
use halfedges::Mesh;

// The point of the face beyond the side of h, which has a mate.
fn beyond(mesh: Mesh, h: usize) -> usize
    requires h_in_bounds { h < length mesh.faces.now }
    requires mated { (2 ≤ mate quads mesh.faces.now h) × (mate quads mesh.faces.now h < length mesh.faces.now) }
    ensures { result ≡ from mesh.entry.faces.now (mate quads mesh.entry.faces.now h - 1) }
{
    let m = mesh.mate(h);
    mesh.start_of(m - 1)
}

// The vertices of the family from h on.
fn family_at(mesh: Mesh, h: usize) -> Family
    requires { PlainFamily mesh.faces.now h }
    ensures { FamilyOf mesh.entry.faces.now h result }
{
    Family {
        centre: mesh.start_of(h + 2),
        corners: [
            mesh.start_of(h),
            mesh.start_of(h + 4),
            mesh.start_of(h + 8),
            mesh.start_of(h + 12),
        ],
        edges: [
            mesh.start_of(h + 1),
            mesh.start_of(h + 5),
            mesh.start_of(h + 9),
            mesh.start_of(h + 13),
        ],
        faces: [
            beyond(mesh, h),
            beyond(mesh, h + 4),
            beyond(mesh, h + 8),
            beyond(mesh, h + 12),
        ],
    }
}

// The edges of a plain family: the sixteen half-edges from h on.
pub fn family_edges(
    points: &mut [i32],
    faces: &[u32],
    marks: &[u8],
    work: &mut [u32],
    h: usize,
    edges: usize,
    t: u32,
) -> usize
    requires { Going t faces.now marks.now points.old work.old h edges × PlainFamily faces.now h }
    ensures { Carries t faces.now marks.now h edges (h + 16) result points.old work.old points.new work.new }
{
    let mesh = Mesh {
        faces,
        work: &*work,
    };
    let family = family_at(mesh, h);
    familysteps::family_steps(&mut *points, faces, marks, &mut *work, h, edges, family, t)
}

// Whether the half-edge h has a mate.
fn is_mated(mesh: Mesh, h: usize) -> bool
    requires { h < length mesh.faces.now }
    ensures { result ≡ true → mate quads mesh.entry.faces.now h < length mesh.entry.faces.now }
{
    mesh.mate(h) < mesh.half_edges()
}

// Whether the sides of the face that was split have mates, where its family starts at h.
fn mated_sides(mesh: Mesh, h: usize) -> bool
    requires { h + 15 < length mesh.faces.now }
    ensures { result ≡ true → (i : ℕ) → i < 4 → mate quads mesh.entry.faces.now (h + 4 * i) < length mesh.entry.faces.now }
{
    (0..4).all(|i| is_mated(mesh, h + 4 * i))
}

// Whether its corners are ordinary.
fn ordinary_corners(faces: &[u32], work: &[u32], at: usize, initial: usize, h: usize) -> bool
    requires { ClassedCorners at initial faces.now work.now × (h + 15 < length faces.now) }
    ensures { result ≡ true → (i : ℕ) → i < 4 → Ordinary faces.now (from faces.now (h + 4 * i)) }
{
    (0..4).all(|i| classes::is_ordinary(work, at, initial, halfedges::start_of(faces, h + 4 * i)))
}

// Whether both hold.
pub fn plain_family(faces: &[u32], work: &[u32], at: usize, initial: usize, h: usize) -> bool
    requires { Connectivity faces.now work.now × ClassedCorners at initial faces.now work.now × (h + 15 < length faces.now) }
    ensures { result ≡ true → FamilyTest faces.now h }
{
    let mesh = Mesh { faces, work };
    mated_sides(mesh, h) && ordinary_corners(faces, work, at, initial, h)
}
