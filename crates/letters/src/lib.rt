// Letters of refined vertices: which rule made each, by corners, marks and mates alone. Most are those of inner edges and of faces away from the boundary.
#![tactic(auto)]

ghost use Rattle.std.specs.Prelude.{◌≡◌, true, ℕ, ◌+◌, ◌≤◌, ◌<◌, length, set};
ghost use Rattle.topology.specs.Shape.{quads};
ghost use Rattle.topology.specs.HalfEdge.{edge_count};
ghost use Rattle.refinedfaces.specs.Refined.{refined_vertices};
ghost use Rattle.edgeentries.specs.Entry.{boundary_flag, entry_of};
ghost use Rattle.pointletters.specs.FaceLetter.{face_letter};
ghost use Rattle.letters.specs.Letters.{start_letter, new_letter, Corrected, Nameable, WrittenIf};

use halfedges::Mesh;

// Writes the letters of the vertices where refining begins, where they are asked for: the first are drawn, and the others made by the split.
pub fn name_start(with_letters: bool, letters: &mut [u8], control: usize, start: usize)
    requires { with_letters ≡ true → (control ≤ start) × (start ≤ length letters.old) }
    ensures { WrittenIf with_letters 0 start (start_letter control) letters.old letters.new }
{
    if with_letters {
        letters[..control].fill(b'V');
        letters[control..start].fill(b'S');
    }
}

// Writes the letter of face f, where `first` is the place of the first face.
fn name_face(letters: &mut [u8], mesh: Mesh, first: usize, f: usize)
    requires { (f < quads.faces (length mesh.faces.now)) × (first + f < length letters.old) }
    ensures { letters.new ≡ set letters.old (first + f) (face_letter mesh.entry.faces.now f) }
{
    letters[first + f] = pointletters::face_letter(mesh, f);
}

// Puts right what the half-edge h touches if it lies on the boundary: the letter of its edge, of its face, and of the face beyond the opposite side.
fn name_side(letters: &mut [u8], mesh: Mesh, marks: &[u8], first: usize, h: usize)
    requires nameable { Nameable mesh.faces.now marks.now mesh.work.now letters.old }
    requires first_value { (first ≡ length marks.now + edge_count quads mesh.faces.now) × (h < length mesh.faces.now) }
    ensures { Corrected mesh.entry.faces.now marks.now h (h + 1) letters.old letters.new }
{
    let n = mesh.faces.len();
    let entry = edgeentries::entry_at(mesh.work, n, h);
    if !edgeentries::is_boundary(entry) {
        return;
    }
    let place = marks.len() + edgeentries::number_of(entry);
    letters[place] = pointletters::edge_letter(mesh.faces, marks, h, n);
    name_face(&mut *letters, mesh, first, halfedges::face_of(h));
    let g = mesh.mate(halfedges::across_side(h));
    if g < n {
        name_face(&mut *letters, mesh, first, halfedges::face_of(g));
    }
}

// Whether the edges of the four half-edges from h on are inner edges.
fn inner_sides(work: &[u32], n: usize, h: usize) -> bool
    requires { n + h + 4 ≤ length work.now }
    ensures { result ≡ true → (k : ℕ) → h ≤ k → k < h + 4 → entry_of n work.now k < boundary_flag }
{
    (h..h + 4).all(|k| !edgeentries::is_boundary(edgeentries::entry_at(work, n, k)))
}

// Puts right what the four sides from h on touch; most faces have none on the boundary.
fn name_sides(letters: &mut [u8], mesh: Mesh, marks: &[u8], first: usize, h: usize)
    requires nameable { Nameable mesh.faces.now marks.now mesh.work.now letters.old }
    requires first_value { (first ≡ length marks.now + edge_count quads mesh.faces.now) × (h + 4 ≤ length mesh.faces.now) }
    ensures { Corrected mesh.entry.faces.now marks.now h (h + 4) letters.old letters.new }
{
    if inner_sides(mesh.work, mesh.faces.len(), h) {
        return;
    }
    for k in h..h + 4 {
        name_side(&mut *letters, mesh, marks, first, k);
    }
}

// Puts right what the boundary touches, where `first` is the place of the first face.
fn name_boundary(letters: &mut [u8], mesh: Mesh, marks: &[u8], first: usize)
    requires nameable { Nameable mesh.faces.now marks.now mesh.work.now letters.old }
    requires first_value { first ≡ length marks.now + edge_count quads mesh.faces.now }
    ensures { Corrected mesh.entry.faces.now marks.now 0 (length mesh.entry.faces.now) letters.old letters.new }
{
    for f in 0..mesh.faces.len() / 4 {
        name_sides(&mut *letters, mesh, marks, first, 4 * f);
    }
}

// Writes the letters of the new vertices of a round, where they are asked for: of the edges, then of the faces, behind those of the old vertices.
pub fn name_points(
    with_letters: bool,
    letters: &mut [u8],
    faces: &[u32],
    marks: &[u8],
    work: &[u32],
    edges: usize,
)
    requires { with_letters ≡ true → Nameable faces.now marks.now work.now letters.old × (edges ≡ edge_count quads faces.now) }
    ensures { WrittenIf with_letters (length marks.now) (refined_vertices quads (length marks.now) faces.now) (new_letter faces.now marks.now) letters.old letters.new }
{
    if with_letters {
        let first = marks.len() + edges;
        let end = first + faces.len() / 4;
        letters[marks.len()..first].fill(b'C');
        letters[first..end].fill(b'D');
        name_boundary(&mut *letters, Mesh { faces, work }, marks, first);
    }
}
