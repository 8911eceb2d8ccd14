// Rounds in the caller's tables: the net at their front is refined in place.
#![tactic(auto)]

ghost use Rattle.std.specs.Prelude.{◌*◌, ◌^◌};
ghost use Rattle.nets.specs.Net.{front_net};
ghost use Rattle.nets.specs.Buffers.{buffers};
ghost use Rattle.rounds.specs.Rounds.{Prepared, After, LettersFit, LettersAfter};

// k rounds, to `last` faces, with the letters of the new vertices where they are asked for. The classes of the vertices are made once, past what rounds write; the
// mates are refined only where another round follows. The answer is the final number of vertices.
pub fn rounds(
    points: &mut [i32],
    faces: &mut [u32],
    marks: &mut [u8],
    with_letters: bool,
    letters: &mut [u8],
    work: &mut [u32],
    v: usize,
    n: usize,
    k: u32,
    last: usize,
    t: u32,
) -> usize
    requires prepared { Prepared t k v n last (buffers points.old faces.old marks.old work.old) }
    requires letters_fit { LettersFit with_letters (n * 4 ^ k) letters.old }
    ensures after { After t k v n result (buffers points.old faces.old marks.old work.old)
        (buffers points.new faces.new marks.new work.new) }
    ensures letters_after { LettersAfter with_letters t k v result (front_net v n points.old faces.old marks.old) letters.old letters.new }
{
    if k == 0 {
        return v;
    }
    let at = 8 * last;
    classes::count_ring_sizes(&faces[..n], &mut *work, at, v);
    let mut count = v;
    let mut corners = n;
    for i in 0..k {
        count = oneround::round(
            &mut *points,
            &mut *faces,
            &mut *marks,
            with_letters,
            &mut *letters,
            &mut *work,
            count,
            corners,
            at,
            v,
            t,
            i > 0,
        );
        if i + 1 < k {
            roundmates::next_mates(&mut *work, corners, i > 0);
            corners *= 4;
        }
    }
    count
}
