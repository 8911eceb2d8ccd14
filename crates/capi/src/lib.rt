// The functions for C.
#![tactic(auto)]

ghost use Rattle.std.specs.Prelude.{◌≡◌, length};
ghost use Rattle.nets.specs.Net.{control_net};
ghost use Rattle.verdict.specs.Call.{room, call};
ghost use Rattle.admission.specs.Answer.{checked};
ghost use Rattle.outcome.specs.Outcome.{request_on, outcome};
ghost use Rattle.reports.specs.Report.{sizes};
ghost use Rattle.reports.specs.Version.{version};
ghost use Rattle.seamtest.specs.SeamTest.{seam_side, seam_tested};
ghost use Rattle.capi.specs.Export.{check_export_of, check_export, export_of, refine_export, seam_export_of, seam_export};

use limits::Room;
use nets::Net;
use reports::{Finding, Report, SeamReport, Sizes};
use sharing::SeamSide;

// The caller's record: the new points of the accepted calls.
#[repr(C)]
#[derive(Clone, Copy)]
pub struct Tally {
    pub points: u64,
}

// The verdict on a call but for 15, given the lengths of its output tables and whether letters are asked for: reason 0, or the refusal's number and place.
#[unsafe(no_mangle)]
pub extern "C" fn gedrovit_check(
    rounds: u32,
    vertices: &[i32],
    faces: &[u32],
    sides: &[u8],
    marks: &[u8],
    tension: u32,
    out_vertices: usize,
    out_faces: usize,
    out_marks: usize,
    with_letters: bool,
    letters: usize,
    work: &mut [u32],
) -> Finding
    ensures { check_export_of result work.new ≡
        check_export (checked (call rounds (control_net vertices.now faces.now sides.now marks.now) tension (room out_vertices out_faces out_marks with_letters letters (length work.old))) work.old) }
{
    let room = Room {
        vertices: out_vertices,
        faces: out_faces,
        marks: out_marks,
        with_letters,
        letters,
        work: work.len(),
    };
    let net = Net {
        vertices,
        faces,
        sides,
        marks,
    };
    Finding::from(admission::check(rounds, net, tension, room, &mut *work))
}

// The refined net in the output tables and both counts, with its new points added to the record, and its letters where they are asked for; or the refusal's number
// and place, and the record as it was.
#[unsafe(no_mangle)]
pub extern "C" fn gedrovit_refine(
    tally: &mut Tally,
    rounds: u32,
    vertices: &[i32],
    faces: &[u32],
    sides: &[u8],
    marks: &[u8],
    tension: u32,
    out_vertices: &mut [i32],
    out_faces: &mut [u32],
    out_marks: &mut [u8],
    with_letters: bool,
    letters: &mut [u8],
    work: &mut [u32],
) -> Report
    ensures { export_of result tally.new.points out_vertices.new out_faces.new out_marks.new letters.new work.new ≡
        refine_export (outcome (request_on tally.old.points rounds vertices.now faces.now sides.now marks.now tension out_vertices.old out_faces.old out_marks.old with_letters letters.old work.old)) }
{
    let answer = refine::refine(
        tally.points,
        rounds,
        Net {
            vertices,
            faces,
            sides,
            marks,
        },
        tension,
        out_vertices,
        out_faces,
        out_marks,
        with_letters,
        letters,
        work,
    );
    if let Ok(counts) = answer {
        tally.points = counts.points;
    }
    Report::from(answer)
}

// Whether the boundary segment from start_a along the boundary of one net is that from start_b against the boundary of the other: reason 0 and the number of its edges, or the
// refusal's number and place.
#[unsafe(no_mangle)]
pub extern "C" fn gedrovit_share_seam(
    vertices_a: &[i32],
    faces_a: &[u32],
    sides_a: &[u8],
    marks_a: &[u8],
    tension_a: u32,
    start_a: u32,
    vertices_b: &[i32],
    faces_b: &[u32],
    sides_b: &[u8],
    marks_b: &[u8],
    tension_b: u32,
    start_b: u32,
    work: &mut [u32],
) -> SeamReport
    ensures { seam_export_of result work.new ≡ seam_export (seam_tested (seam_side (control_net vertices_a.now faces_a.now sides_a.now marks_a.now) tension_a start_a) (seam_side (control_net vertices_b.now faces_b.now sides_b.now marks_b.now) tension_b start_b) work.old) }
{
    let answer = sharing::share_seam(
        SeamSide {
            net: Net {
                vertices: vertices_a,
                faces: faces_a,
                sides: sides_a,
                marks: marks_a,
            },
            tension: tension_a,
            start: start_a as usize,
        },
        SeamSide {
            net: Net {
                vertices: vertices_b,
                faces: faces_b,
                sides: sides_b,
                marks: marks_b,
            },
            tension: tension_b,
            start: start_b as usize,
        },
        &mut *work,
    );
    SeamReport::from(answer)
}

// The lengths to provide for a call, from the side counts and the lengths of the net's other tables; or refusal 1, 2, 3 or 14, which no tables avert, and
// lengths 0.
#[unsafe(no_mangle)]
pub extern "C" fn gedrovit_sizes_for(
    rounds: u32,
    vertices: usize,
    faces: usize,
    sides: &[u8],
    marks: usize,
) -> Sizes
    ensures { result ≡ sizes rounds vertices faces sides.now marks }
{
    reports::sizes_for(rounds, vertices, faces, sides, marks)
}

// The version of the archive.
#[unsafe(no_mangle)]
pub extern "C" fn gedrovit_version() -> u32
    ensures { result ≡ version }
{
    reports::version()
}

// The same under a name that has the version in it: a program that was compiled with another version's header does not link.
#[unsafe(no_mangle)]
pub extern "C" fn gedrovit_version_0_8_0() -> u32
    ensures { result ≡ version }
{
    gedrovit_version()
}
