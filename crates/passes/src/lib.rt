// The passes of a round over all edges and over all faces: one by one in the first round, by families in later ones, where a round made the net.
#![tactic(auto)]

ghost use Rattle.std.specs.Prelude.{◌≡◌, true, ◌+◌, ◌*◌, ◌/◌, ◌%◌, ◌≤◌, ◌<◌, length, take};
ghost use Rattle.curve.specs.Weights.{tension};
ghost use Rattle.topology.specs.Shape.{quads};
ghost use Rattle.topology.specs.HalfEdge.{edge_count};
ghost use Rattle.refinedfaces.specs.Refined.{refined};
ghost use Rattle.refinedfaces.specs.Families.{AfterRound};
ghost use Rattle.tables.specs.Tables.{filled, Written};
ghost use Rattle.roundfaces.specs.Faces.{refined_by, FacesIn};
ghost use Rattle.facerules.specs.Faces.{FaceTable, face_coordinate, face_coordinates};
ghost use Rattle.familyfaces.specs.Family.{FamilyTable};
ghost use Rattle.edgetable.specs.EdgeTable.{Round, Edges};
ghost use Rattle.familylines.specs.Steps.{Carries};
ghost use Rattle.passes.specs.Parts.{Underway, PartIn, PointsPut};

use facerules::RoundEdges;
use familyfaces::FamilyEdges;

// Makes the points of the edges of the half-edges from h up to `end`, where `edges` are met before; the answer is how many are met then.
fn side_points(
    points: &mut [i32],
    faces: &[u32],
    marks: &[u8],
    work: &mut [u32],
    at: usize,
    initial: usize,
    h: usize,
    end: usize,
    edges: usize,
    t: u32,
) -> usize
    requires underway { Underway t faces.now marks.now points.old work.old at initial h edges }
    requires end_in_bounds { (h ≤ end) × (end ≤ length faces.now) }
    ensures { Carries t faces.now marks.now h edges end result points.old work.old points.new work.new }
{
    let mut met = edges;
    for g in h..end {
        met = edgetable::edge_side(
            &mut *points,
            faces,
            marks,
            &mut *work,
            at,
            initial,
            g,
            met,
            t,
        );
    }
    met
}

// Makes the points of the edges of the family from h on.
fn family_points(
    points: &mut [i32],
    faces: &[u32],
    marks: &[u8],
    work: &mut [u32],
    at: usize,
    initial: usize,
    h: usize,
    edges: usize,
    t: u32,
) -> usize
    requires underway { Underway t faces.now marks.now points.old work.old at initial h edges }
    requires after_round { AfterRound faces.now × (h % 16 ≡ 0) × (h < length faces.now) }
    ensures { Carries t faces.now marks.now h edges (h + 16) result points.old work.old points.new work.new }
{
    if familyedges::plain_family(faces, &*work, at, initial, h) {
        return familyedges::family_edges(&mut *points, faces, marks, &mut *work, h, edges, t);
    }
    side_points(
        &mut *points,
        faces,
        marks,
        &mut *work,
        at,
        initial,
        h,
        h + 16,
        edges,
        t,
    )
}

// Makes the points of all edges, family by family.
fn edges_by_families(
    points: &mut [i32],
    faces: &[u32],
    marks: &[u8],
    work: &mut [u32],
    at: usize,
    initial: usize,
    t: u32,
) -> usize
    requires round { Round t faces.now marks.now points.old work.old at initial }
    requires after_round { AfterRound faces.now }
    ensures { Carries t faces.now marks.now 0 0 (length faces.now) result points.old work.old points.new work.new }
{
    let mut edges = 0;
    for p in 0..faces.len() / 16 {
        edges = family_points(
            &mut *points,
            faces,
            marks,
            &mut *work,
            at,
            initial,
            16 * p,
            edges,
            t,
        );
    }
    edges
}

// Makes the points of all edges; the answer is their number.
pub fn edge_points(
    points: &mut [i32],
    faces: &[u32],
    marks: &[u8],
    work: &mut [u32],
    at: usize,
    initial: usize,
    t: u32,
    later: bool,
) -> usize
    requires round { Round t faces.now marks.now points.old work.old at initial }
    requires after_round { later ≡ true → AfterRound faces.now }
    ensures value { result ≡ edge_count quads faces.now }
    ensures edges { Edges t faces.now marks.now points.old work.old points.new work.new (length faces.now) (edge_count quads faces.now) }
{
    if later {
        return edges_by_families(&mut *points, faces, marks, &mut *work, at, initial, t);
    }
    side_points(
        &mut *points,
        faces,
        marks,
        &mut *work,
        at,
        initial,
        0,
        faces.len(),
        0,
        t,
    )
}

// Writes the points of the faces from f up to `end` to `out`, and their refined corners over the corners, the last first.
fn put_faces(
    out: &mut [i32],
    faces: &mut [u32],
    round: RoundEdges,
    v: usize,
    edges: usize,
    f: usize,
    end: usize,
)
    requires { PartIn round.half_edges v edges f end out.old faces.old round.work.now }
    ensures points { PointsPut (face_coordinate (tension round.entry.tension) round.entry.half_edges round.entry.work.now) f end out.old out.new }
    ensures corners { Written (16 * f) (16 * end) (refined_by round.entry.half_edges v edges faces.old round.entry.work.now) faces.old faces.new }
{
    for g in (f..end).rev() {
        facepoints::put_face(&mut *out, round, g);
        roundfaces::refine_face(&mut *faces, round.work, round.half_edges, v, edges, g);
    }
}

// The same for the family of the faces from f on.
fn put_family(
    out: &mut [i32],
    faces: &mut [u32],
    family: FamilyEdges,
    v: usize,
    edges: usize,
    f: usize,
)
    requires part { PartIn family.round.half_edges v edges f (f + 4) out.old faces.old family.round.work.now }
    requires first { f % 4 ≡ 0 }
    ensures points { PointsPut (face_coordinate (tension family.entry.round.tension) family.entry.round.half_edges family.entry.round.work.now) f (f + 4) out.old out.new }
    ensures corners { Written (16 * f) (16 * (f + 4)) (refined_by family.entry.round.half_edges v edges faces.old family.entry.round.work.now) faces.old faces.new }
{
    if family.plain_family(f) {
        family.refine_family(&mut *out, &mut *faces, v, edges, f);
        return;
    }
    put_faces(&mut *out, &mut *faces, family.round, v, edges, f, f + 4);
}

// The same for all faces, family by family.
fn faces_by_families(
    out: &mut [i32],
    faces: &mut [u32],
    family: FamilyEdges,
    v: usize,
    edges: usize,
)
    requires faces_in { FacesIn family.round.half_edges v edges faces.old family.round.work.now × (3 * (family.round.half_edges / 4) ≤ length out.old) }
    ensures out_after { out.new ≡ filled (face_coordinates (tension family.entry.round.tension) family.entry.round.half_edges family.entry.round.work.now) out.old }
    ensures faces_after { faces.new ≡ filled (refined quads v (take family.entry.round.half_edges faces.old)) faces.old }
{
    for p in (0..family.round.half_edges / 16).rev() {
        put_family(&mut *out, &mut *faces, family, v, edges, 4 * p);
    }
}

// Writes the points of all faces to `out`, and the refined corners over the corners, from the last face to the first; in a later round by families.
pub fn face_points(
    out: &mut [i32],
    faces: &mut [u32],
    work: &[u32],
    n: usize,
    v: usize,
    edges: usize,
    t: u32,
    later: bool,
)
    requires face_table { FaceTable t n work.now × FacesIn n v edges faces.old work.now × (3 * (n / 4) ≤ length out.old) }
    requires family_table { later ≡ true → FamilyTable n work.now }
    ensures out_after { out.new ≡ filled (face_coordinates (tension t) n work.now) out.old }
    ensures faces_after { faces.new ≡ filled (refined quads v (take n faces.old)) faces.old }
{
    let round = RoundEdges {
        work,
        half_edges: n,
        tension: t,
    };
    if later {
        faces_by_families(&mut *out, &mut *faces, FamilyEdges { round }, v, edges);
        return;
    }
    put_faces(&mut *out, &mut *faces, round, v, edges, 0, n / 4);
}
