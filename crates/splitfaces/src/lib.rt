// The faces of the split, made from the drawn tables: "Sides and numbering follow the round in 01".
#![tactic(auto)]

ghost use Rattle.std.specs.Prelude.{◌≡◌, ◌*◌, ◌<◌, length};
ghost use Rattle.polygons.specs.Polygons.{shape_of};
ghost use Rattle.refinedfaces.specs.Refined.{corner, refined};
ghost use Rattle.tables.specs.Tables.{filled, put_four};
ghost use Rattle.splitfaces.specs.Faces.{NumberedFaces};

// Writes the face at half-edge h: its corner, the point of its side, the point of its face, the point of the side before.
fn split_face(
    faces: &[u32],
    sides: &[u8],
    work: &[u32],
    out: &mut [u32],
    v: usize,
    edges: usize,
    h: usize,
)
    requires numbered_faces { NumberedFaces sides.now faces.now work.now v edges out.old }
    requires h_in_bounds { h < length faces.now }
    ensures { out.new ≡ put_four out.old (4 * h) (corner (shape_of sides.now) v faces.now h 0)
        (corner (shape_of sides.now) v faces.now h 1) (corner (shape_of sides.now) v faces.now h 2)
        (corner (shape_of sides.now) v faces.now h 3) }
{
    let n = faces.len();
    let prev = sidetable::prev_in(sides, work, n, h);
    let face = sidetable::face_in(sides, work, n, h);
    let first = v as u32;
    let side = first + work[n + h];
    let point = (v + edges + face) as u32;
    let before = first + work[n + prev];
    tables::put_four(&mut *out, 4 * h, faces[h], side, point, before);
}

// Writes the faces of the split.
pub fn split_faces(
    faces: &[u32],
    sides: &[u8],
    work: &[u32],
    out: &mut [u32],
    v: usize,
    edges: usize,
)
    requires { NumberedFaces sides.now faces.now work.now v edges out.old }
    ensures { out.new ≡ filled (refined (shape_of sides.now) v faces.now) out.old }
{
    for h in 0..faces.len() {
        split_face(faces, sides, work, &mut *out, v, edges, h);
    }
}
