// Brings the net where refining begins to the caller's tables: a copy of the drawn net, or its split where there are side counts.
#![tactic(auto)]

ghost use Rattle.std.specs.Prelude.{◌<◌, length};
ghost use Rattle.nets.specs.Net.{control_net};
ghost use Rattle.nets.specs.Buffers.{buffers};
ghost use Rattle.loading.specs.Loading.{Loadable, SplitInto, Loaded};

// Splits the drawn net into the output tables; the answer is the number of vertices. The edges are numbered behind the mates.
fn split_tables(
    vertices: &[i32],
    faces: &[u32],
    sides: &[u8],
    marks: &[u8],
    out_vertices: &mut [i32],
    out_faces: &mut [u32],
    out_marks: &mut [u8],
    work: &mut [u32],
) -> usize
    requires loadable { Loadable (control_net vertices.now faces.now sides.now marks.now) (buffers out_vertices.old out_faces.old out_marks.old work.old) }
    requires sides_nonzero { 0 < length sides.now }
    ensures { SplitInto (control_net vertices.now faces.now sides.now marks.now)
        (buffers out_vertices.old out_faces.old out_marks.old work.old)
        (buffers out_vertices.new out_faces.new out_marks.new work.new) result }
{
    let v = marks.len();
    tables::copy(vertices, &mut *out_vertices);
    tables::copy(marks, &mut *out_marks);
    let edges = edgenumbers::number_edges(faces.len(), &mut *work);
    splitvertices::new_points(&mut *out_vertices, faces, sides, &*work, v);
    splitfaces::split_faces(faces, sides, &*work, &mut *out_faces, v, edges);
    let count = v + edges + sides.len();
    roundfaces::extend_marks(&mut *out_marks, v, count);
    count
}

// Loads the net; the answer is the number of vertices where refining begins. Without side counts the work table is not touched.
pub fn load(
    vertices: &[i32],
    faces: &[u32],
    sides: &[u8],
    marks: &[u8],
    out_vertices: &mut [i32],
    out_faces: &mut [u32],
    out_marks: &mut [u8],
    work: &mut [u32],
) -> usize
    requires { Loadable (control_net vertices.now faces.now sides.now marks.now) (buffers out_vertices.old out_faces.old out_marks.old work.old) }
    ensures { Loaded (control_net vertices.now faces.now sides.now marks.now)
        (buffers out_vertices.old out_faces.old out_marks.old work.old)
        (buffers out_vertices.new out_faces.new out_marks.new work.new) result }
{
    if sides.len() == 0 {
        tables::copy(vertices, &mut *out_vertices);
        tables::copy(faces, &mut *out_faces);
        tables::copy(marks, &mut *out_marks);
        return marks.len();
    }
    let count = split_tables(
        vertices,
        faces,
        sides,
        marks,
        &mut *out_vertices,
        &mut *out_faces,
        &mut *out_marks,
        &mut *work,
    );
    let end = 4 * faces.len();
    adjacency::link_faces(&out_faces[..end], &sides[..0], &mut *work);
    count
}
