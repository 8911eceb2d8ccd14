// The edges of a plain family one after the other, by vertices that were read.
#![tactic(auto)]

ghost use Rattle.std.specs.Prelude.{◌+◌};
ghost use Rattle.familylines.specs.Steps.{Going, Carries};
ghost use Rattle.familysteps.specs.Family.{FamilyOf};

// The vertices of a family: the point of the face that was split, its corners, the points of its sides, and the points of the faces beyond them.
#[derive(Clone, Copy)]
pub struct Family {
    pub centre: usize,
    pub corners: [usize; 4],
    pub edges: [usize; 4],
    pub faces: [usize; 4],
}

// The face at the first corner: its two inner sides are met first here.
fn first_face(
    points: &mut [i32],
    faces: &[u32],
    marks: &[u8],
    work: &mut [u32],
    h: usize,
    edges: usize,
    family: Family,
    t: u32,
) -> usize
    requires { Going t faces.now marks.now points.old work.old h edges × FamilyOf faces.now h family }
    ensures { Carries t faces.now marks.now h edges (h + 4) result points.old work.old points.new work.new }
{
    let k0 = familylines::first_half(
        &mut *points,
        faces,
        marks,
        &mut *work,
        h,
        h,
        edges,
        family.corners[0],
        family.edges[0],
        family.corners[1],
        t,
    );
    let k1 = familylines::make_edge(
        &mut *points,
        faces,
        marks,
        &mut *work,
        h + 1,
        k0,
        family.faces[0],
        family.edges[0],
        family.centre,
        family.edges[2],
        t,
    );
    let k2 = familylines::make_edge(
        &mut *points,
        faces,
        marks,
        &mut *work,
        h + 2,
        k1,
        family.faces[3],
        family.edges[3],
        family.centre,
        family.edges[1],
        t,
    );
    familylines::last_half(
        &mut *points,
        faces,
        marks,
        &mut *work,
        h,
        h + 3,
        k2,
        family.corners[3],
        family.edges[3],
        family.corners[0],
        t,
    )
}

// The face at the second corner.
fn second_face(
    points: &mut [i32],
    faces: &[u32],
    marks: &[u8],
    work: &mut [u32],
    h: usize,
    edges: usize,
    family: Family,
    t: u32,
) -> usize
    requires { Going t faces.now marks.now points.old work.old (h + 4) edges × FamilyOf faces.now h family }
    ensures { Carries t faces.now marks.now (h + 4) edges (h + 8) result points.old work.old points.new work.new }
{
    let k4 = familylines::first_half(
        &mut *points,
        faces,
        marks,
        &mut *work,
        h,
        h + 4,
        edges,
        family.corners[1],
        family.edges[1],
        family.corners[2],
        t,
    );
    let k5 = familylines::make_edge(
        &mut *points,
        faces,
        marks,
        &mut *work,
        h + 5,
        k4,
        family.faces[1],
        family.edges[1],
        family.centre,
        family.edges[3],
        t,
    );
    let k6 = familylines::pass_edge(&mut *points, faces, marks, &mut *work, h + 6, k5, h + 1, t);
    familylines::last_half(
        &mut *points,
        faces,
        marks,
        &mut *work,
        h,
        h + 7,
        k6,
        family.corners[0],
        family.edges[0],
        family.corners[1],
        t,
    )
}

// The face at the third corner.
fn third_face(
    points: &mut [i32],
    faces: &[u32],
    marks: &[u8],
    work: &mut [u32],
    h: usize,
    edges: usize,
    family: Family,
    t: u32,
) -> usize
    requires { Going t faces.now marks.now points.old work.old (h + 8) edges × FamilyOf faces.now h family }
    ensures { Carries t faces.now marks.now (h + 8) edges (h + 12) result points.old work.old points.new work.new }
{
    let k8 = familylines::first_half(
        &mut *points,
        faces,
        marks,
        &mut *work,
        h,
        h + 8,
        edges,
        family.corners[2],
        family.edges[2],
        family.corners[3],
        t,
    );
    let k9 = familylines::make_edge(
        &mut *points,
        faces,
        marks,
        &mut *work,
        h + 9,
        k8,
        family.faces[2],
        family.edges[2],
        family.centre,
        family.edges[0],
        t,
    );
    let k10 = familylines::pass_edge(&mut *points, faces, marks, &mut *work, h + 10, k9, h + 5, t);
    familylines::last_half(
        &mut *points,
        faces,
        marks,
        &mut *work,
        h,
        h + 11,
        k10,
        family.corners[1],
        family.edges[1],
        family.corners[2],
        t,
    )
}

// The face at the fourth corner: its two inner sides were met before.
fn fourth_face(
    points: &mut [i32],
    faces: &[u32],
    marks: &[u8],
    work: &mut [u32],
    h: usize,
    edges: usize,
    family: Family,
    t: u32,
) -> usize
    requires { Going t faces.now marks.now points.old work.old (h + 12) edges × FamilyOf faces.now h family }
    ensures { Carries t faces.now marks.now (h + 12) edges (h + 16) result points.old work.old points.new work.new }
{
    let k12 = familylines::first_half(
        &mut *points,
        faces,
        marks,
        &mut *work,
        h,
        h + 12,
        edges,
        family.corners[3],
        family.edges[3],
        family.corners[0],
        t,
    );
    let k13 = familylines::pass_edge(
        &mut *points,
        faces,
        marks,
        &mut *work,
        h + 13,
        k12,
        h + 2,
        t,
    );
    let k14 = familylines::pass_edge(
        &mut *points,
        faces,
        marks,
        &mut *work,
        h + 14,
        k13,
        h + 9,
        t,
    );
    familylines::last_half(
        &mut *points,
        faces,
        marks,
        &mut *work,
        h,
        h + 15,
        k14,
        family.corners[2],
        family.edges[2],
        family.corners[3],
        t,
    )
}

// The edges of a plain family: sixteen steps from h on, by the vertices that were read.
pub fn family_steps(
    points: &mut [i32],
    faces: &[u32],
    marks: &[u8],
    work: &mut [u32],
    h: usize,
    edges: usize,
    family: Family,
    t: u32,
) -> usize
    requires { Going t faces.now marks.now points.old work.old h edges × FamilyOf faces.now h family }
    ensures { Carries t faces.now marks.now h edges (h + 16) result points.old work.old points.new work.new }
{
    let k3 = first_face(&mut *points, faces, marks, &mut *work, h, edges, family, t);
    let k7 = second_face(&mut *points, faces, marks, &mut *work, h, k3, family, t);
    let k11 = third_face(&mut *points, faces, marks, &mut *work, h, k7, family, t);
    fourth_face(&mut *points, faces, marks, &mut *work, h, k11, family, t)
}
