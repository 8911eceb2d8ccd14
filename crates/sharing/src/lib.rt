// The seam test: two nets are checked, and a boundary segment of each is walked and compared.
#![tactic(auto)]

ghost use Rattle.std.specs.Prelude.{◌≡◌};
ghost use Rattle.seamtest.specs.SeamTest.{bad_start, unlike, seam_tested};
ghost use Rattle.sharing.specs.Sharing.{side, shared_as};
ghost use Rattle.sharing.specs.Walks.{FirstPassed, second_tested, BothPassed, Started, Answered, LinkRoom, Relinked};

use nets::Net;
use reasons::{Reason, Refusal};

// One side of the seam: a net, its tension, and the vertex from which its boundary segment is read.
#[derive(Clone, Copy)]
pub struct SeamSide<'a> {
    pub net: Net<'a>,
    pub tension: u32,
    pub start: usize,
}

// Whether a start is no marked vertex.
#[tactic(auto, unfolding(seamtest::specs::SeamTest::bad_start, nets::specs::Net::marked))]
fn bad_start(a: SeamSide<'_>) -> bool
    ensures { result ≡ bad_start (side a.entry) }
{
    a.start >= a.net.marks.len() || a.net.marks[a.start] != 1
}

// Whether the tensions differ, or only one net has side counts.
#[tactic(auto, unfolding(seamtest::specs::SeamTest::unlike))]
fn unlike(a: SeamSide<'_>, b: SeamSide<'_>) -> bool
    ensures { result ≡ unlike (side a.entry) (side b.entry) }
{
    a.tension != b.tension || a.net.sides.is_empty() != b.net.sides.is_empty()
}

// Builds shape, chains and mates of a net.
fn relink(faces: &[u32], sides: &[u8], work: &mut [u32])
    requires { LinkRoom sides.now faces.now work.old }
    ensures { Relinked sides.now faces.now work.old work.new }
{
    sidetable::build_shape(sides, faces.len(), &mut *work);
    adjacency::link_faces(faces, sides, &mut *work);
}

// The test of two accepted nets with good starts. The vertices of the second segment, met against the boundary, are listed behind all tables of half-edges; then the first net's
// mates and shape take the place of the second's, and its segment is walked and compared with the list. Neither net has more than f faces, of quadrilaterals where there are
// side counts.
fn share_marked(
    a: SeamSide<'_>,
    b: SeamSide<'_>,
    f: usize,
    work: &mut [u32],
) -> Result<usize, Refusal>
    requires { Started (side a) (side b) f work.old }
    ensures { Answered (side a.entry) (side b.entry) f work.old result work.new }
{
    if unlike(a, b) {
        return Err(Refusal {
            reason: Reason::SeamMismatch,
            place: 0,
        });
    }
    let against = boundarywalk::boundary_from(b.net, &*work, b.start);
    let edges = boundarywalk::walk_to_mark(b.net, &mut *work, against, true, 12 * f);
    relink(a.net.faces, a.net.sides, &mut *work);
    let along = boundarywalk::boundary_from(a.net, &*work, a.start);
    let step = comparison::first_apart(a.net, along, b.net, b.start, &*work, 12 * f, edges);
    if step <= edges {
        return Err(Refusal {
            reason: Reason::SeamMismatch,
            place: step,
        });
    }
    Ok(edges)
}

// The test of two accepted nets of at most f faces, of quadrilaterals where there are side counts, with mates and shape of the second in the work table.
fn share_passed(
    a: SeamSide<'_>,
    b: SeamSide<'_>,
    f: usize,
    work: &mut [u32],
) -> Result<usize, Refusal>
    requires { BothPassed (side a) (side b) f work.old }
    ensures { Answered (side a.entry) (side b.entry) f work.old result work.new }
{
    if bad_start(a) {
        return Err(Refusal {
            reason: Reason::InvalidStart,
            place: 1,
        });
    }
    if bad_start(b) {
        return Err(Refusal {
            reason: Reason::InvalidStart,
            place: 2,
        });
    }
    share_marked(a, b, f, &mut *work)
}

// The test where the first net is accepted and the work table is as its check left it.
fn share_second(a: SeamSide<'_>, b: SeamSide<'_>, work: &mut [u32]) -> Result<usize, Refusal>
    requires { FirstPassed (side a) work.old }
    ensures { shared_as result work.new ≡ second_tested (side a.entry) (side b.entry) work.old }
{
    let g = admission::admit_alone(b.net, b.tension, &mut *work)?;
    let f = limits::quadrilaterals(a.net.sides, a.net.faces.len()).max(g);
    let answer = share_passed(a, b, f, &mut *work);
    tables::clear(&mut *work, 16 * f);
    answer
}

// Whether the segment from one vertex of a net along its boundary is that from a vertex of another net against its boundary: the number of its edges, or the refusal.
// The time is linear in the tables.
pub fn share_seam(a: SeamSide<'_>, b: SeamSide<'_>, work: &mut [u32]) -> Result<usize, Refusal>
    ensures { shared_as result work.new ≡ seam_tested (side a.entry) (side b.entry) work.old }
{
    admission::check_alone(a.net, a.tension, &mut *work)?;
    share_second(a, b, &mut *work)
}
