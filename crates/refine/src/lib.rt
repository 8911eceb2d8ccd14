// The refining call.
#![tactic(auto)]

ghost use Rattle.std.specs.Prelude.{◌≡◌};
ghost use Rattle.admission.specs.Admission.{AdmittedCall};
ghost use Rattle.outcome.specs.Outcome.{request_on, call_of, outcome};
ghost use Rattle.refine.specs.Answer.{answered};

use limits::Room;
use nets::Net;
use reasons::{Reason, Refusal};

// The counts of a refined net, and the tally with its new points.
#[derive(Clone, Copy, Debug, PartialEq, Eq)]
pub struct RefinedCounts {
    pub vertices: usize,
    pub faces: usize,
    pub points: u64,
}

// What follows the admission: refusal 15; or the net where refining begins loaded into the output tables and refined there, and the work table cleared.
fn refine_admitted(
    points: u64,
    rounds: u32,
    net: Net<'_>,
    t: u32,
    out_vertices: &mut [i32],
    out_faces: &mut [u32],
    out_marks: &mut [u8],
    with_letters: bool,
    letters: &mut [u8],
    work: &mut [u32],
    last: usize,
) -> Result<RefinedCounts, Refusal>
    requires { AdmittedCall (call_of (request_on points rounds net.vertices.now net.faces.now net.sides.now net.marks.now t out_vertices.old out_faces.old out_marks.old with_letters letters.old work.old)) last work.old }
    ensures { answered result points out_vertices.new out_faces.new out_marks.new letters.new work.new ≡
        outcome (request_on points rounds net.entry.vertices.now net.entry.faces.now net.entry.sides.now net.entry.marks.now t out_vertices.old out_faces.old out_marks.old with_letters letters.old work.old) }
{
    let v = net.marks.len();
    let new = (growth::final_vertices(rounds, net.faces, net.sides, v, &*work) - v) as u64;
    if growth::exceeds(points, new) {
        tables::clear(&mut *work, 16 * last);
        return Err(Refusal {
            reason: Reason::TallyLimit,
            place: 0,
        });
    }
    let start = loading::load(
        net.vertices,
        net.faces,
        net.sides,
        net.marks,
        &mut *out_vertices,
        &mut *out_faces,
        &mut *out_marks,
        &mut *work,
    );
    letters::name_start(with_letters, &mut *letters, v, start);
    let count = rounds::rounds(
        &mut *out_vertices,
        &mut *out_faces,
        &mut *out_marks,
        with_letters,
        &mut *letters,
        &mut *work,
        start,
        4 * limits::quadrilaterals(net.sides, net.faces.len()),
        rounds,
        last,
        t,
    );
    tables::clear(&mut *work, 16 * last);
    Ok(RefinedCounts {
        vertices: count,
        faces: last,
        points: points + new,
    })
}

// The net after all rounds and its new points added to `points`, its letters where they are asked for; or the first refusal that holds, which adds none. The time is
// that of the check, and after it linear in the refined net.
pub fn refine(
    points: u64,
    rounds: u32,
    net: Net<'_>,
    tension: u32,
    out_vertices: &mut [i32],
    out_faces: &mut [u32],
    out_marks: &mut [u8],
    with_letters: bool,
    letters: &mut [u8],
    work: &mut [u32],
) -> Result<RefinedCounts, Refusal>
    ensures { answered result points out_vertices.new out_faces.new out_marks.new letters.new work.new ≡
        outcome (request_on points rounds net.entry.vertices.now net.entry.faces.now net.entry.sides.now net.entry.marks.now tension out_vertices.old out_faces.old out_marks.old with_letters letters.old work.old) }
{
    let room = Room {
        vertices: out_vertices.len(),
        faces: out_faces.len(),
        marks: out_marks.len(),
        with_letters,
        letters: letters.len(),
        work: work.len(),
    };
    let last = admission::admit(rounds, net, tension, room, &mut *work)?;
    refine_admitted(
        points,
        rounds,
        net,
        tension,
        &mut *out_vertices,
        &mut *out_faces,
        &mut *out_marks,
        with_letters,
        &mut *letters,
        &mut *work,
        last,
    )
}
