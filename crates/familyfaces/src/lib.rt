// The faces of a family, in a net that a round made: where the eight halves of the sides of the face that was split are plain, so are all eight edges of each of its faces,
// and one direction is enough.
#![tactic(auto)]

ghost use Rattle.std.specs.Prelude.{◌≡◌, true, ◌+◌, ◌*◌, ◌/◌, ◌%◌, ◌≤◌, ◌<◌, length};
ghost use Rattle.curve.specs.Weights.{tension};
ghost use Rattle.topology.specs.Shape.{quads};
ghost use Rattle.tables.specs.Tables.{Written};
ghost use Rattle.coordinates.specs.Points.{put_point};
ghost use Rattle.roundfaces.specs.Faces.{refined_by, FaceIn};
ghost use Rattle.facerules.specs.Faces.{face_coordinate};
ghost use Rattle.familyfaces.specs.Family.{FamilyTable, PlainSides, put_family};

use facerules::RoundEdges;

// The edges of a round, in a net that a round made.
#[derive(Clone, Copy)]
pub struct FamilyEdges<'a> {
    pub round: RoundEdges<'a>,
    pub ghost made: { FamilyTable round.half_edges round.work.now },
}

impl<'a> FamilyEdges<'a> {
    // Writes the point of face f of a plain family, where q is the face before it: side 1 of q is the edge of its side 2, and side 3 of q the half beyond that.
    fn family_face(self, out: &mut [i32], f: usize, q: usize)
        requires face { (4 * f < self.round.half_edges) × (q ≡ quads.prev f) × PlainSides self.round.half_edges self.round.work.now (f / 4) }
        requires room { 3 * f + 3 ≤ length out.old }
        ensures { out.new ≡ put_point out.old f (face_coordinate (tension self.entry.round.tension) self.entry.round.half_edges self.entry.round.work.now 0 f) (face_coordinate (tension self.entry.round.tension) self.entry.round.half_edges self.entry.round.work.now 1 f) (face_coordinate (tension self.entry.round.tension) self.entry.round.half_edges self.entry.round.work.now 2 f) }
    {
        let round = self.round;
        let o = round.beyond(4 * f);
        let p = round.entry_at(4 * f);
        let r = round.entry_at(4 * q + 1);
        let v = round.entry_at(4 * q + 3);
        facepoints::plain_face(
            &mut *out,
            round.work,
            round.half_edges,
            o,
            p,
            r,
            v,
            f,
            round.tension,
        );
    }

    // Writes the points of the four faces of a plain family, the last first: the faces from f on.
    fn family_points(self, out: &mut [i32], f: usize)
        requires sides { PlainSides self.round.half_edges self.round.work.now (f / 4) × (f % 4 ≡ 0) }
        requires room { (4 * f + 16 ≤ self.round.half_edges) × (3 * f + 12 ≤ length out.old) }
        ensures { out.new ≡ put_family (face_coordinate (tension self.entry.round.tension) self.entry.round.half_edges self.entry.round.work.now) out.old f }
    {
        self.family_face(&mut *out, f + 3, f + 2);
        self.family_face(&mut *out, f + 2, f + 1);
        self.family_face(&mut *out, f + 1, f);
        self.family_face(&mut *out, f, f + 3);
    }

    // Writes the points and the refined corners of the four faces of a plain family, the last first: the faces from f on.
    pub fn refine_family(self, out: &mut [i32], faces: &mut [u32], v: usize, edges: usize, f: usize)
        requires sides { PlainSides self.round.half_edges self.round.work.now (f / 4) × (f % 4 ≡ 0) }
        requires face_in { FaceIn self.round.half_edges v edges f faces.old self.round.work.now × (4 * f + 16 ≤ self.round.half_edges) × (3 * f + 12 ≤ length out.old) }
        ensures out_after { out.new ≡ put_family (face_coordinate (tension self.entry.round.tension) self.entry.round.half_edges self.entry.round.work.now) out.old f }
        ensures written { Written (16 * f) (16 * f + 64) (refined_by self.entry.round.half_edges v edges faces.old self.entry.round.work.now) faces.old faces.new }
    {
        let work = self.round.work;
        let n = self.round.half_edges;
        self.family_points(&mut *out, f);
        roundfaces::refine_face(&mut *faces, work, n, v, edges, f + 3);
        roundfaces::refine_face(&mut *faces, work, n, v, edges, f + 2);
        roundfaces::refine_face(&mut *faces, work, n, v, edges, f + 1);
        roundfaces::refine_face(&mut *faces, work, n, v, edges, f);
    }

    // Whether the eight halves of the sides of the face that was split are plain, as their sum tells.
    pub fn plain_family(self, f: usize) -> bool
        requires { (4 * f + 16 ≤ self.round.half_edges) × (f % 4 ≡ 0) }
        ensures { result ≡ true → PlainSides self.entry.round.half_edges self.entry.round.work.now (f / 4) }
    {
        let round = self.round;
        let h = 4 * f;
        let s = round.entry_at(h)
            + round.entry_at(h + 3)
            + round.entry_at(h + 4)
            + round.entry_at(h + 7);
        let u = round.entry_at(h + 8)
            + round.entry_at(h + 11)
            + round.entry_at(h + 12)
            + round.entry_at(h + 15);
        edgeentries::is_plain(s + u)
    }
}
