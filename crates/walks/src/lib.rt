// Walks round the vertices of a net and along its boundary, over any tables that tell mates and steps round faces. The number of half-edges stands for 'none'.
#![tactic(auto)]

ghost use Rattle.std.specs.Prelude.{◌≡◌, List, ℕ, ◌<◌, length};
ghost use Rattle.topology.specs.Shape.{Shape, quads};
ghost use Rattle.topology.specs.HalfEdge.{mate};
ghost use Rattle.topology.specs.Boundary.{along, back};
ghost use Rattle.polygons.specs.Polygons.{shape_of};
ghost use Rattle.walks.specs.Ready.{Ready, Closed, FanStart, StartOfFan};

use halfedges::Mesh;
use sidetable::PolygonMesh;

// The half-edges of a net: its corners and its shape, in tables that tell mates and the steps round a face.
pub trait HalfEdges {
    ghost shape: { Self → Shape };

    ghost corners: { Self → List ℕ };

    fn count(&self) -> usize
        ensures { result ≡ length (corners self.now) };

    fn next(&self, h: usize) -> usize
        requires { h < length (corners self.now) }
        ensures { result ≡ (shape self.now).next h };

    fn prev(&self, h: usize) -> usize
        requires { h < length (corners self.now) }
        ensures { result ≡ (shape self.now).prev h };

    fn mate(&self, h: usize) -> usize
        requires { h < length (corners self.now) }
        ensures { result ≡ mate (shape self.now) (corners self.now) h };
}

impl<'a> HalfEdges for Mesh<'a> {
    ghost shape = { λ _. quads };

    ghost corners = { λ s. s.faces.now };

    fn count(&self) -> usize {
        self.half_edges()
    }

    fn next(&self, h: usize) -> usize {
        halfedges::next_side(h)
    }

    fn prev(&self, h: usize) -> usize {
        halfedges::prev_side(h)
    }

    fn mate(&self, h: usize) -> usize {
        Mesh::mate(*self, h)
    }
}

impl<'a> HalfEdges for PolygonMesh<'a> {
    ghost shape = { λ s. shape_of s.sides.now };

    ghost corners = { λ s. s.faces.now };

    fn count(&self) -> usize {
        self.faces.len()
    }

    fn next(&self, h: usize) -> usize {
        sidetable::next_in(self.sides, self.work, self.faces.len(), h)
    }

    fn prev(&self, h: usize) -> usize {
        sidetable::prev_in(self.sides, self.work, self.faces.len(), h)
    }

    fn mate(&self, h: usize) -> usize {
        PolygonMesh::mate(*self, h)
    }
}

// A boundary half-edge, or none, and a place in its fan.
#[derive(Clone, Copy)]
pub struct Start {
    pub side: usize,
    pub place: usize,
}

// The boundary half-edge that leaves the vertex of h, found by turning back from h, and the place of h in its fan. A fan has at most six faces.
pub fn start_of_fan<N: HalfEdges>(net: &N, h: usize) -> Start
    requires closed { Closed (N.shape net.now) (N.corners net.now) }
    requires h_in_bounds { h < length (N.corners net.now) }
    ensures { StartOfFan (N.shape net.now) (N.corners net.now) h result.side result.place }
{
    let n = net.count();
    let mut g = h;
    for i in 0..6usize {
        let m = net.mate(g);
        if m == n {
            return Start { side: g, place: i };
        }
        g = net.next(m);
    }
    Start { side: n, place: 0 }
}

// The boundary half-edge after h the way the sides run, or none.
pub fn along<N: HalfEdges>(net: &N, h: usize) -> usize
    requires closed { Closed (N.shape net.now) (N.corners net.now) }
    requires h_in_bounds { h < length (N.corners net.now) }
    ensures { result ≡ along (N.shape net.now) (N.corners net.now) h }
{
    start_of_fan(net, net.next(h)).side
}

// The boundary half-edge that enters the vertex of h, or none, found by turning from h.
pub fn back<N: HalfEdges>(net: &N, h: usize) -> usize
    requires closed { Closed (N.shape net.now) (N.corners net.now) }
    requires h_in_bounds { h < length (N.corners net.now) }
    ensures { result ≡ back (N.shape net.now) (N.corners net.now) h }
{
    let n = net.count();
    let mut g = h;
    for _turns in 0..6u16 {
        let last = net.prev(g);
        g = net.mate(last);
        if g == n {
            return last;
        }
    }
    n
}

// The same in a net with four-sided faces.
pub fn fan_start(mesh: Mesh, h: usize) -> Start
    requires ready { Ready mesh.faces.now mesh.work.now }
    requires h_in_bounds { h < length mesh.faces.now }
    ensures { FanStart mesh.entry.faces.now h result.side result.place }
{
    start_of_fan(&mesh, h)
}
