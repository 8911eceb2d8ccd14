// The points of faces, from the mates, the entries of the edges and their exact points in the work table.
#![tactic(auto)]

ghost use Rattle.std.specs.Prelude.{◌≡◌, ◌+◌, ◌*◌, ◌≤◌, ◌<◌, length};
ghost use Rattle.curve.specs.Weights.{tension};
ghost use Rattle.coordinates.specs.Points.{put_point};
ghost use Rattle.facerules.specs.Faces.{face_coordinate};
ghost use Rattle.facepoints.specs.Plain.{PlainAt, PlainEdge, plain_direction, plain_coordinate};

use facerules::RoundEdges;

// One direction by the numerators over 64 at the places p, q, r, s, rounded: on the numbers as they are packed, with 2^56 + 2^31 more each. The weights add up to 64 at
// every tension, so 64 times that is too much.
fn plain_on(work: &[u32], p: usize, q: usize, r: usize, s: usize, t: u32) -> i32
    requires { PlainAt work.now p × PlainAt work.now q × PlainAt work.now r × PlainAt work.now s × (t ≤ 4) }
    ensures { result ≡ plain_direction (tension t) work.now p q r s }
{
    let z = curve::four_point(
        edgeentries::load_biased(work, p),
        edgeentries::load_biased(work, q),
        edgeentries::load_biased(work, r),
        edgeentries::load_biased(work, s),
        t,
    );
    rounding::round_shift(z - 4611686155866341376, 2048, 12) as i32
}

// Writes the point of face f by one direction alone, that of the plain edges p, q, r, s.
pub fn plain_face(
    out: &mut [i32],
    work: &[u32],
    n: usize,
    p: usize,
    q: usize,
    r: usize,
    s: usize,
    f: usize,
    t: u32,
)
    requires plain_edge { PlainEdge n work.now p × PlainEdge n work.now q × PlainEdge n work.now r × PlainEdge n work.now s }
    requires f_in_bounds { (3 * f + 3 ≤ length out.old) × (t ≤ 4) }
    ensures { out.new ≡ put_point out.old f (plain_coordinate (tension t) n work.now 0 p q r s) (plain_coordinate (tension t) n work.now 1 p q r s) (plain_coordinate (tension t) n work.now 2 p q r s) }
{
    let o = edgeentries::point_place(n, p);
    let u = edgeentries::point_place(n, q);
    let v = edgeentries::point_place(n, r);
    let w = edgeentries::point_place(n, s);
    let c = coordinates::on_axes(|a| {
        let i = 2 * a;
        plain_on(work, o + i, u + i, v + i, w + i, t)
    });
    coordinates::put_point(&mut *out, f, c.x, c.y, c.z);
}

// Writes the point of face f. Where all eight edges of both directions are plain, as the sums tell, one direction is enough.
#[inline(always)]
pub fn put_face(out: &mut [i32], round: RoundEdges, f: usize)
    requires { (4 * f < round.half_edges) × (3 * f + 3 ≤ length out.old) }
    ensures { out.new ≡ put_point out.old f (face_coordinate (tension round.entry.tension) round.entry.half_edges round.entry.work.now 0 f) (face_coordinate (tension round.entry.tension) round.entry.half_edges round.entry.work.now 1 f) (face_coordinate (tension round.entry.tension) round.entry.half_edges round.entry.work.now 2 f) }
{
    let h = 4 * f;
    let p = round.entry_at(h);
    let q = round.entry_at(h + 1);
    let r = round.entry_at(h + 2);
    let s = round.entry_at(h + 3);
    if edgeentries::is_plain(p + q + r + s) {
        let o = round.beyond(h);
        let u = round.beyond(h + 1);
        let v = round.beyond(h + 2);
        let w = round.beyond(h + 3);
        if edgeentries::is_plain(o + u + v + w) {
            plain_face(
                &mut *out,
                round.work,
                round.half_edges,
                o,
                p,
                r,
                v,
                f,
                round.tension,
            );
            return;
        }
    }
    round.general_face(&mut *out, f);
}
