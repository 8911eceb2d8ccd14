// What crosses the C boundary as numbers: findings, reports, lengths to provide, the version.
#![tactic(auto)]

ghost use Rattle.std.specs.Prelude.{◌≡◌};
ghost use Rattle.verdict.specs.Verdict.{refused};
ghost use Rattle.outcome.specs.Outcome.{refused_with};
ghost use Rattle.reasons.specs.Reasons.{verdict_of};
ghost use Rattle.refine.specs.Answer.{result_of};
ghost use Rattle.sharing.specs.Sharing.{edges_in};
ghost use Rattle.reports.specs.Report.{finding, report, sizes, seam_report_by};
ghost use Rattle.reports.specs.Version as version;

use limits::Lengths;
use reasons::Refusal;
use refine::RefinedCounts;

// The verdict of the check: reason 0, or the refusal's number and place.
#[repr(C)]
#[derive(Clone, Copy)]
pub struct Finding {
    pub reason: u32,
    pub place: u64,
}

// The result of a refining call: reason 0 and the counts of the refined net, or the refusal's number and place.
#[repr(C)]
#[derive(Clone, Copy)]
pub struct Report {
    pub reason: u32,
    pub place: u64,
    pub vertices: u64,
    pub faces: u64,
}

// The lengths that the output tables and the work table of a call must have at least, in elements; a letter table must be as long as the marks.
#[repr(C)]
#[derive(Clone, Copy)]
pub struct Sizes {
    pub reason: u32,
    pub out_vertices: u64,
    pub out_faces: u64,
    pub out_marks: u64,
    pub work: u64,
}

// The result of the seam test: reason 0 and the number of edges, or the refusal's number and place.
#[repr(C)]
#[derive(Clone, Copy)]
pub struct SeamReport {
    pub reason: u32,
    pub place: u64,
    pub edges: u64,
}

impl Finding {
    // A refusal, by its number and place.
    pub fn refused(reason: u32, place: usize) -> Finding
        ensures { result ≡ finding (refused reason place) }
    {
        Finding {
            reason,
            place: place as u64,
        }
    }
}

impl From<Result<(), Refusal>> for Finding {
    ghost from_gives = { λ answer given. given ≡ finding (verdict_of answer) };

    fn from(answer: Result<(), Refusal>) -> Finding {
        match answer {
            Ok(()) => Finding {
                reason: 0,
                place: 0,
            },
            Err(refusal) => Finding::refused(refusal.reason.number(), refusal.place),
        }
    }
}

impl Report {
    // A refusal, by its number and place.
    pub fn refused(reason: u32, place: usize) -> Report
        ensures { result ≡ report (refused_with reason place) }
    {
        Report {
            reason,
            place: place as u64,
            vertices: 0,
            faces: 0,
        }
    }
}

impl From<Result<RefinedCounts, Refusal>> for Report {
    ghost from_gives = { λ answer given. given ≡ report (result_of answer) };

    fn from(answer: Result<RefinedCounts, Refusal>) -> Report {
        match answer {
            Ok(counts) => Report {
                reason: 0,
                place: 0,
                vertices: counts.vertices as u64,
                faces: counts.faces as u64,
            },
            Err(refusal) => Report::refused(refusal.reason.number(), refusal.place),
        }
    }
}

impl SeamReport {
    // A refusal, by its number and place.
    pub fn refused(reason: u32, place: usize) -> SeamReport
        ensures { result ≡ seam_report_by (refused reason place) 0 }
    {
        SeamReport {
            reason,
            place: place as u64,
            edges: 0,
        }
    }
}

impl From<Result<usize, Refusal>> for SeamReport {
    ghost from_gives = { λ answer given. given ≡ seam_report_by (verdict_of answer) (edges_in answer) };

    fn from(answer: Result<usize, Refusal>) -> SeamReport {
        match answer {
            Ok(edges) => SeamReport {
                reason: 0,
                place: 0,
                edges: edges as u64,
            },
            Err(refusal) => SeamReport::refused(refusal.reason.number(), refusal.place),
        }
    }
}

// The lengths to provide for a call, from the side counts and the lengths of the net's other tables; or refusal 1, 2, 3 or 14, which no tables avert, and
// lengths 0.
pub fn sizes_for(rounds: u32, vertices: usize, faces: usize, sides: &[u8], marks: usize) -> Sizes
    ensures { result ≡ sizes rounds vertices faces sides.now marks }
{
    let quadrilaterals = limits::quadrilaterals(sides, faces);
    let g = limits::final_faces(rounds, quadrilaterals);
    let least = limits::needed(g);
    let lengths = Lengths {
        coordinates: vertices,
        corners: faces,
        marks,
        room: least,
    };
    match limits::limits(rounds, sides, lengths) {
        Ok(()) => Sizes {
            reason: 0,
            out_vertices: least.vertices as u64,
            out_faces: least.faces as u64,
            out_marks: least.marks as u64,
            work: least.work as u64,
        },
        Err(reason) => Sizes {
            reason: reason.number(),
            out_vertices: 0,
            out_faces: 0,
            out_marks: 0,
            work: 0,
        },
    }
}

// The version of the package.
pub fn version() -> u32
    ensures { result ≡ version.version }
{
    8000
}
