// The letter of an edge and that of a face, by corners, marks and mates.
#![tactic(auto)]

ghost use Rattle.std.specs.Prelude.{◌≡◌, ◌<◌, length};
ghost use Rattle.topology.specs.Shape.{quads};
ghost use Rattle.topology.specs.HalfEdge.{from, to, mate};
ghost use Rattle.scheme.specs.Points.{edge_rule, four_inner};
ghost use Rattle.halfedges.specs.Tables.{Quadrilaterals};
ghost use Rattle.origins.specs.Origins.{made_by, letter_of, edge_case};
ghost use Rattle.pointletters.specs.FaceLetter.{inner_twice, face_letter};

use edgerules::EdgeRule;
use halfedges::Mesh;

// The letter of the edge of h, whose mate is m, by the rule that makes its point.
pub fn edge_letter(faces: &[u32], marks: &[u8], h: usize, m: usize) -> u8
    requires quadrilaterals { Quadrilaterals (length faces.now) × (h < length faces.now) × (m ≡ mate quads faces.now h) }
    requires h_in_bounds { (from faces.now h < length marks.now) × (to quads faces.now h < length marks.now) }
    ensures { result ≡ letter_of (made_by (edge_case (edge_rule faces.now marks.now h))) }
{
    match edgerules::edge_rule(faces, marks, h, m) {
        EdgeRule::InnerRule => b'C',
        EdgeRule::InsideSegment => b'A',
        EdgeRule::StartOfSegment => b'B',
        EdgeRule::EndOfSegment => b'B',
        EdgeRule::WholeSegment => b'M',
    }
}

// Whether h has a mate, and the side opposite its mate has one.
fn inner_twice(mesh: Mesh, h: usize) -> bool
    requires { h < length mesh.faces.now }
    ensures { result ≡ inner_twice mesh.entry.faces.now h }
{
    let n = mesh.half_edges();
    let m = mesh.mate(h);
    m < n && mesh.mate(halfedges::across_side(m)) < n
}

// Whether the direction of the side h has four inner edges.
fn four_inner(mesh: Mesh, h: usize) -> bool
    requires { h < length mesh.faces.now }
    ensures { result ≡ four_inner mesh.entry.faces.now h }
{
    inner_twice(mesh, h) && inner_twice(mesh, halfedges::across_side(h))
}

// The letter of face f, by whether a direction has four inner edges.
pub fn face_letter(mesh: Mesh, f: usize) -> u8
    requires { f < quads.faces (length mesh.faces.now) }
    ensures { result ≡ face_letter mesh.entry.faces.now f }
{
    if four_inner(mesh, 4 * f) {
        return b'D';
    }
    if four_inner(mesh, 4 * f + 1) {
        return b'D';
    }
    b'E'
}
