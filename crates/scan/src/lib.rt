// The first place of refusals 5 to 8, found by scanning tables.
#![tactic(auto)]

ghost use Rattle.std.specs.Prelude.{◌+◌, ◌*◌, ◌%◌, ◌≤◌, ◌<◌, ◌≡◌, length, drop};
ghost use Rattle.search.specs.Found.{Found};
ghost use Rattle.verdict.specs.Verdict.{bad_coordinate};
ghost use Rattle.refusals.specs.Refusals.{bad_mark, bad_corner, isolated};
ghost use Rattle.topology.specs.Shape.{quads};
ghost use Rattle.polygons.specs.Polygons.{shape_of, Sided};
ghost use Rattle.sidetable.specs.Table.{Shaped};
ghost use Rattle.scan.specs.Flags.{Flagged, IsolatedFound};
ghost use Rattle.scan.specs.Good.{Good, GoodBefore};

// The first coordinate out of range.
pub fn first_bad_coordinate(vertices: &[i32]) -> Option<usize>
    ensures { Found (bad_coordinate vertices.now) (length vertices.now) result }
{
    vertices
        .iter()
        .position(|x| x.unsigned_abs() > bounds::MAX_COORDINATE as u32)
}

// The first mark above 1.
pub fn first_bad_mark(marks: &[u8]) -> Option<usize>
    ensures { Found (bad_mark marks.now) (length marks.now) result }
{
    marks.iter().position(|m| *m > 1)
}

// Flags the corners of all faces among the first m vertices.
fn flag_all(faces: &[u32], m: usize, work: &mut [u32])
    requires { m ≤ length work.old }
    ensures { Flagged m faces.now work.new (length faces.now) × (drop m work.new ≡ drop m work.old) }
{
    tables::clear(&mut *work, m);
    for corner in faces {
        let a = *corner as usize;
        if a < m {
            work[a] = 1;
        }
    }
}

// The first of m vertices without a flag.
fn first_unflagged(faces: &[u32], m: usize, work: &[u32]) -> Option<usize>
    requires { (m ≤ length work.now) × Flagged m faces.now work.now (length faces.now) }
    ensures { Found (isolated faces.now) m result }
{
    work[..m].iter().position(|w| *w == 0)
}

// The first of nv vertices that is in no face, where there are more of them than the n corners: it is one of the first n + 1.
pub fn first_isolated(faces: &[u32], nv: usize, work: &mut [u32]) -> Option<usize>
    requires { (0 < length faces.now) × (length faces.now < nv) × (4 * length faces.now ≤ length work.old) }
    ensures { IsolatedFound faces.now nv (4 * length faces.now) work.old work.new result }
{
    let m = faces.len() + 1;
    flag_all(faces, m, &mut *work);
    first_unflagged(faces, m, &*work)
}

// Whether the corner of half-edge h is not below nv, or equals another corner of its face.
fn bad_corner(faces: &[u32], sides: &[u8], nv: usize, work: &[u32], h: usize) -> bool
    requires shaped { Shaped sides.now (length faces.now) work.now }
    requires h_in_bounds { h < length faces.now }
    ensures { result ≡ bad_corner (shape_of sides.now) nv faces.now h }
{
    let n = faces.len();
    let a = faces[h];
    if a as usize >= nv {
        return true;
    }
    let mut g = sidetable::next_in(sides, work, n, h);
    while g != h {
        if faces[g] == a {
            return true;
        }
        g = sidetable::next_in(sides, work, n, g);
    }
    false
}

// Whether the corners of the four-sided face from h on are below nv and differ.
fn good_face(faces: &[u32], nv: usize, h: usize) -> bool
    requires { h + 4 ≤ length faces.now }
    ensures { Good nv faces.now h result }
{
    let p = faces[h];
    let q = faces[h + 1];
    let r = faces[h + 2];
    let s = faces[h + 3];
    (p as usize) < nv
        && (q as usize) < nv
        && (r as usize) < nv
        && (s as usize) < nv
        && p != q
        && p != r
        && p != s
        && q != r
        && q != s
        && r != s
}

// The first corner of the first four-sided face that is not good, or their number.
fn skip_good(faces: &[u32], nv: usize) -> usize
    requires { length faces.now % 4 ≡ 0 }
    ensures { GoodBefore quads nv faces.now result }
{
    for f in 0..faces.len() / 4 {
        if !good_face(faces, nv, 4 * f) {
            return 4 * f;
        }
    }
    faces.len()
}

// A half-edge with no bad corner before it.
fn first_suspect(faces: &[u32], sides: &[u8], nv: usize) -> usize
    requires { Sided sides.now (length faces.now) }
    ensures { GoodBefore (shape_of sides.now) nv faces.now result }
{
    if sides.is_empty() {
        skip_good(faces, nv)
    } else {
        0
    }
}

// The first half-edge with a bad corner.
pub fn first_bad_corner(faces: &[u32], sides: &[u8], nv: usize, work: &[u32]) -> Option<usize>
    requires { Shaped sides.now (length faces.now) work.now }
    ensures { Found (bad_corner (shape_of sides.now) nv faces.now) (length faces.now) result }
{
    for h in first_suspect(faces, sides, nv)..faces.len() {
        if bad_corner(faces, sides, nv, work, h) {
            return Some(h);
        }
    }
    None
}
