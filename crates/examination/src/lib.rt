// Refusals 5 to 12 of a net, in their order.
#![tactic(auto)]

ghost use Rattle.std.specs.Prelude.{◌≡◌, length};
ghost use Rattle.search.specs.Search.{first};
ghost use Rattle.refusals.specs.Refusals.{bad_corner};
ghost use Rattle.polygons.specs.Polygons.{shape_of};
ghost use Rattle.nets.specs.Drawn.{drawn};
ghost use Rattle.verdict.specs.Verdict.{vertex_verdict, adjacency_verdict, faces_verdict, shape_verdict, net_verdict};
ghost use Rattle.reasons.specs.Reasons.{number, verdict_of};
ghost use Rattle.slotsteps.specs.Slots.{SlotTables};
ghost use Rattle.examination.specs.Examine.{refused_where, CheckTables, Joined, Examined};

use nets::Net;
use reasons::{Reason, Refusal};
use sidetable::PolygonMesh;
use vertexcounts::CountedVertices;

// The refusal for a reason at the place that was found, if one was.
fn refuse_at(reason: Reason, place: Option<usize>) -> Result<(), Refusal>
    ensures { verdict_of result ≡ refused_where (number reason) place }
{
    match place {
        Some(place) => Err(Refusal { reason, place }),
        None => Ok(()),
    }
}

// Refusals 10 to 12 of a net with its mates built and its vertices counted.
fn examine_vertices(vertices: CountedVertices, marks: &[u8]) -> Result<(), Refusal>
    requires count { vertices.count ≡ length marks.now }
    requires joined { Joined vertices.mesh.faces.now vertices.count }
    ensures { verdict_of result ≡ vertex_verdict (shape_of vertices.entry.mesh.sides.now) vertices.entry.count vertices.entry.mesh.faces.now marks.now }
{
    refuse_at(
        Reason::NonManifoldVertex,
        manifold::first_non_manifold(vertices),
    )?;
    refuse_at(
        Reason::ValenceOutOfRange,
        manifold::first_bad_valence(vertices),
    )?;
    refuse_at(
        Reason::MarkedInteriorVertex,
        manifold::first_marked_ring(vertices, marks),
    )
}

// Refusals 9 to 12 of a net whose vertices all are in faces, with its chains built. On acceptance the work table starts with the mates.
fn examine_adjacency(net: Net, work: &mut [u32]) -> Result<(), Refusal>
    requires slot_tables { SlotTables (length net.marks.now) net.sides.now net.faces.now work.old }
    requires joined { Joined net.faces.now (length net.marks.now) }
    requires faces_value { first (bad_corner (shape_of net.sides.now) (length net.marks.now) net.faces.now) (length net.faces.now) ≡ length net.faces.now }
    ensures { Examined (adjacency_verdict (shape_of net.entry.sides.now) (length net.entry.marks.now) net.entry.faces.now net.entry.marks.now)
        net.entry.sides.now net.entry.faces.now work.old result work.new }
{
    let faces = net.faces;
    let sides = net.sides;
    let count = net.marks.len();
    if let Some(h) = slots::link(faces, sides, count, &mut *work) {
        return Err(Refusal {
            reason: Reason::RepeatedHalfEdge,
            place: sidetable::face_in(sides, &*work, faces.len(), h),
        });
    }
    vertexcounts::count_faces(faces, sides, count, &mut *work);
    let mesh = PolygonMesh {
        faces,
        sides,
        work: &*work,
    };
    let vertices = CountedVertices { mesh, count };
    examine_vertices(vertices, net.marks)
}

// Refusals 8 to 12 of a net whose corners all are vertices.
fn examine_faces(net: Net, work: &mut [u32]) -> Result<(), Refusal>
    requires check_tables { CheckTables net.sides.now net.faces.now work.old }
    requires faces_value { first (bad_corner (shape_of net.sides.now) (length net.marks.now) net.faces.now) (length net.faces.now) ≡ length net.faces.now }
    ensures { Examined (faces_verdict (shape_of net.entry.sides.now) (length net.entry.marks.now) net.entry.faces.now net.entry.marks.now)
        net.entry.sides.now net.entry.faces.now work.old result work.new }
{
    let nv = net.marks.len();
    if net.faces.len() == 0 {
        return refuse_at(Reason::IsolatedVertex, (nv != 0).then_some(0));
    }
    if net.faces.len() < nv {
        return refuse_at(
            Reason::IsolatedVertex,
            scan::first_isolated(net.faces, nv, &mut *work),
        );
    }
    adjacency::build_chains(net.faces, net.sides, &mut *work);
    refuse_at(
        Reason::IsolatedVertex,
        adjacency::first_empty(net.faces, net.sides, nv, &*work),
    )?;
    examine_adjacency(net, &mut *work)
}

// Refusals 6 to 12.
fn examine_shape(net: Net, work: &mut [u32]) -> Result<(), Refusal>
    requires { CheckTables net.sides.now net.faces.now work.old }
    ensures { Examined (shape_verdict (shape_of net.entry.sides.now) net.entry.faces.now net.entry.marks.now)
        net.entry.sides.now net.entry.faces.now work.old result work.new }
{
    refuse_at(Reason::InvalidMark, scan::first_bad_mark(net.marks))?;
    let n = net.faces.len();
    if let Some(h) = scan::first_bad_corner(net.faces, net.sides, net.marks.len(), &*work) {
        return Err(Refusal {
            reason: Reason::InvalidCorner,
            place: sidetable::face_in(net.sides, &*work, n, h),
        });
    }
    examine_faces(net, &mut *work)
}

// Refusals 5 to 12 of a net whose shape is in the work table. Of that table only the first 4n numbers are changed, n being the number of corners; on
// acceptance it starts with the mates.
pub fn examine_net(net: Net, work: &mut [u32]) -> Result<(), Refusal>
    requires { CheckTables net.sides.now net.faces.now work.old }
    ensures { Examined (net_verdict (drawn net.entry)) net.entry.sides.now net.entry.faces.now work.old result work.new }
{
    if let Some(x) = scan::first_bad_coordinate(net.vertices) {
        return Err(Refusal {
            reason: Reason::CoordinateOutOfRange,
            place: x / 3,
        });
    }
    examine_shape(net, &mut *work)
}
