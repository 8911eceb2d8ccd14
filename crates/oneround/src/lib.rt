// One round in the caller's tables: the net at their front is refined in place.
#![tactic(auto)]

ghost use Rattle.std.specs.Prelude.{◌≡◌, true, ◌*◌, ◌≤◌, length, take};
ghost use Rattle.oneround.specs.Round.{Current, Refines};
ghost use Rattle.nets.specs.Buffers.{buffers};
ghost use Rattle.refinedfaces.specs.Families.{AfterRound};
ghost use Rattle.letters.specs.Letters.{new_letter, WrittenIf};

// One round on the net of v vertices and n corners at the front of the tables, with the letters of its new vertices where they are asked for; the mates stay as they
// are, and the classes of the vertices, from `at` on. The answer is the new number of vertices.
pub fn round(
    points: &mut [i32],
    faces: &mut [u32],
    marks: &mut [u8],
    with_letters: bool,
    letters: &mut [u8],
    work: &mut [u32],
    v: usize,
    n: usize,
    at: usize,
    initial: usize,
    t: u32,
    later: bool,
) -> usize
    requires current { Current t v n at initial (buffers points.old faces.old marks.old work.old) }
    requires n_in_bounds { with_letters ≡ true → 4 * n ≤ length letters.old }
    requires after_round { later ≡ true → AfterRound (take n faces.old) }
    ensures refines { Refines t v n result (buffers points.old faces.old marks.old work.old)
        (buffers points.new faces.new marks.new work.new) }
    ensures written_if { WrittenIf with_letters v result (new_letter (take n faces.old) (take v marks.old)) letters.old letters.new }
{
    let edges = passes::edge_points(
        &mut *points,
        &faces[..n],
        &marks[..v],
        &mut *work,
        at,
        initial,
        t,
        later,
    );
    letters::name_points(
        with_letters,
        &mut *letters,
        &faces[..n],
        &marks[..v],
        &*work,
        edges,
    );
    let count = v + edges + n / 4;
    roundfaces::extend_marks(&mut *marks, v, count);
    let first = 3 * (v + edges);
    passes::face_points(
        &mut points[first..],
        &mut *faces,
        &*work,
        n,
        v,
        edges,
        t,
        later,
    );
    count
}
