// Walks along the boundary of a net with side counts or without, on the caller's tables of corners and mates. The number of half-edges stands for 'none'.
#![tactic(auto)]

ghost use Rattle.std.specs.Prelude.{◌≡◌, ℕ, suc, ◌+◌, ◌-◌, ◌<◌, length};
ghost use Rattle.topology.specs.HalfEdge.{from};
ghost use Rattle.topology.specs.Boundary.{boundary_from, boundary_step};
ghost use Rattle.tables.specs.Tables.{Written};
ghost use Rattle.polygons.specs.Polygons.{shape_of};
ghost use Rattle.boundarywalk.specs.Walkable.{Walkable, way_of, stepped, edges_to, ListRoom, StartsAtMark};

use nets::Net;
use sidetable::PolygonMesh;

// The boundary half-edge that leaves the vertex p, or none.
pub fn boundary_from(net: Net<'_>, work: &[u32], p: usize) -> usize
    requires { Walkable net.sides.now net.faces.now work.now }
    ensures { result ≡ boundary_from (shape_of net.entry.sides.now) net.entry.faces.now p }
{
    let faces = net.faces;
    let mesh = PolygonMesh {
        faces,
        sides: net.sides,
        work,
    };
    let n = faces.len();
    for h in 0..n {
        if mesh.mate(h) == n && faces[h] as usize == p {
            return h;
        }
    }
    n
}

// One step along the boundary, or against it.
pub fn step_in(mesh: PolygonMesh<'_>, h: usize, against: bool) -> usize
    requires walkable { Walkable mesh.sides.now mesh.faces.now mesh.work.now }
    requires h_in_bounds { h < length mesh.faces.now }
    ensures { result ≡ boundary_step (shape_of mesh.entry.sides.now) mesh.entry.faces.now (way_of against) h }
{
    if against {
        return walks::back(&mesh, h);
    }
    walks::along(&mesh, h)
}

// Walks from the boundary half-edge h to the next mark, writes the vertices met after its start, the mark last, to the work table from the place `at` on, and gives their
// number.
pub fn walk_to_mark(net: Net<'_>, work: &mut [u32], h: usize, against: bool, at: usize) -> usize
    requires walkable { Walkable net.sides.now net.faces.now work.old }
    requires starts_at_mark { StartsAtMark net.sides.now net.faces.now net.marks.now h }
    requires list_room { ListRoom net.sides.now net.faces.now work.old at }
    ensures value { result ≡ edges_to (shape_of net.entry.sides.now) net.entry.faces.now net.entry.marks.now against h }
    ensures written { Written at (at + result) (λ (j : ℕ). from net.entry.faces.now (stepped (shape_of net.entry.sides.now) net.entry.faces.now against h (suc (j - at)))) work.old work.new }
{
    let faces = net.faces;
    let mut g = h;
    for k in 0..faces.len() {
        let mesh = PolygonMesh {
            faces,
            sides: net.sides,
            work: &*work,
        };
        g = step_in(mesh, g, against);
        work[at + k] = faces[g];
        if net.marks[faces[g] as usize] == 1 {
            return k + 1;
        }
    }
    faces.len()
}
