// Half-edges of four-sided faces: steps round a face, the vertices that a half-edge meets, its mate; read from the caller's tables of corners and mates.
// The number of half-edges stands for 'none'.
#![tactic(auto)]

ghost use Rattle.std.specs.Prelude.{◌≡◌, ◌<◌, length};
ghost use Rattle.bounds.specs.Bounds.{max_half_edges};
ghost use Rattle.topology.specs.Shape.{quads};
ghost use Rattle.topology.specs.HalfEdge.{from, to, mate};
ghost use Rattle.topology.specs.Vertex.{turn};
ghost use Rattle.topology.specs.Quads.{across, opposite_corner};
ghost use Rattle.halfedges.specs.Tables.{Quadrilaterals, Connectivity};

// The half-edge after h round its face.
pub fn next_side(h: usize) -> usize
    requires { h < max_half_edges }
    ensures { result ≡ quads.next h }
{
    4 * (h / 4) + (h + 1) % 4
}

// The half-edge before h round its face.
pub fn prev_side(h: usize) -> usize
    requires { h < max_half_edges }
    ensures { result ≡ quads.prev h }
{
    4 * (h / 4) + (h + 3) % 4
}

// The side opposite h in its face.
pub fn across_side(h: usize) -> usize
    requires { h < max_half_edges }
    ensures { result ≡ across h }
{
    4 * (h / 4) + (h + 2) % 4
}

// The face of h.
pub fn face_of(h: usize) -> usize
    ensures { result ≡ quads.face h }
{
    h / 4
}

// The vertex that h leaves.
pub fn start_of(faces: &[u32], h: usize) -> usize
    requires { h < length faces.now }
    ensures { result ≡ from faces.now h }
{
    faces[h] as usize
}

// The vertex that h enters.
pub fn end_of(faces: &[u32], h: usize) -> usize
    requires { Quadrilaterals (length faces.now) × (h < length faces.now) }
    ensures { result ≡ to quads faces.now h }
{
    start_of(faces, next_side(h))
}

// The corner before the vertex of h in its face.
pub fn corner_before(faces: &[u32], h: usize) -> usize
    requires { Quadrilaterals (length faces.now) × (h < length faces.now) }
    ensures { result ≡ from faces.now (quads.prev h) }
{
    start_of(faces, prev_side(h))
}

// The corner of the face of h opposite the vertex that h leaves.
pub fn opposite_corner(faces: &[u32], h: usize) -> usize
    requires { Quadrilaterals (length faces.now) × (h < length faces.now) }
    ensures { result ≡ opposite_corner faces.now h }
{
    start_of(faces, across_side(h))
}

// The mate of h, or none.
pub fn mate_side(faces: &[u32], work: &[u32], h: usize) -> usize
    requires connectivity { Connectivity faces.now work.now }
    requires h_in_bounds { h < length faces.now }
    ensures { result ≡ mate quads faces.now h }
{
    work[h] as usize
}

// A net with four-sided faces: the corners of its half-edges, and a table with their mates in front.
#[derive(Clone, Copy)]
pub struct Mesh<'a> {
    pub faces: &'a [u32],
    pub work: &'a [u32],
    pub ghost connectivity: { Connectivity faces.now work.now },
}

impl<'a> Mesh<'a> {
    // The number of half-edges, which stands for 'none'.
    pub fn half_edges(self) -> usize
        ensures { result ≡ length self.entry.faces.now }
    {
        self.faces.len()
    }

    // The vertex that h leaves.
    pub fn start_of(self, h: usize) -> usize
        requires { h < length self.faces.now }
        ensures { result ≡ from self.entry.faces.now h }
    {
        start_of(self.faces, h)
    }

    // The vertex that h enters.
    pub fn end_of(self, h: usize) -> usize
        requires { h < length self.faces.now }
        ensures { result ≡ to quads self.entry.faces.now h }
    {
        self.start_of(next_side(h))
    }

    // The corner before the vertex of h in its face.
    pub fn corner_before(self, h: usize) -> usize
        requires { h < length self.faces.now }
        ensures { result ≡ from self.entry.faces.now (quads.prev h) }
    {
        corner_before(self.faces, h)
    }

    // The corner of the face of h opposite the vertex that h leaves.
    pub fn opposite_corner(self, h: usize) -> usize
        requires { h < length self.faces.now }
        ensures { result ≡ opposite_corner self.entry.faces.now h }
    {
        opposite_corner(self.faces, h)
    }

    // The mate of h, or none.
    pub fn mate(self, h: usize) -> usize
        requires { h < length self.faces.now }
        ensures { result ≡ mate quads self.entry.faces.now h }
    {
        self.work[h] as usize
    }

    // The half-edge that leaves the vertex of h in the face beyond the side before h, or none.
    pub fn turn(self, h: usize) -> usize
        requires { h < length self.faces.now }
        ensures { result ≡ turn quads self.entry.faces.now h }
    {
        self.mate(prev_side(h))
    }
}
