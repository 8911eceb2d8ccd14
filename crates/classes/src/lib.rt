// Which vertices are ordinary: the ring sizes of the vertices where refining begins, counted once, in 16 bits, and read in every round.
#![tactic(auto)]

ghost use Rattle.std.specs.Prelude.{◌≡◌, ◌+◌, ◌≤◌, ◌<◌, length};
ghost use Rattle.tables.specs.Tables.{SameOutside};
ghost use Rattle.ringsizes.specs.Classes.{RingSizes, size_at, ordinary_by, Countable, share_of, CountedBelow};

use halfedges::Mesh;

// The ring size at a place of the table.
fn size_at(work: &[u32], i: usize) -> u16
    requires { i < length work.now }
    ensures { result ≡ size_at work.now i }
{
    (work[i] % 65536) as u16
}

// What half-edge h counts for the vertex that it leaves: 1, and 2 more on the boundary.
#[tactic(auto, unfolding(ringsizes::specs::Classes::share_of))]
fn share(mesh: Mesh, h: usize) -> u16
    requires { h < length mesh.faces.now }
    ensures { result ≡ share_of mesh.entry.faces.now h }
{
    if mesh.mate(h) < mesh.half_edges() {
        1
    } else {
        3
    }
}

// Counts half-edge h for the vertex that it leaves.
fn count_side(faces: &[u32], work: &mut [u32], at: usize, v: usize, h: usize)
    requires countable { Countable v at faces.now work.old }
    requires h_in_bounds { (h < length faces.now) × CountedBelow v at faces.now work.old h }
    ensures counted_below { CountedBelow v at faces.now work.new (h + 1) }
    ensures same_outside { SameOutside at (at + v) work.old work.new }
{
    let mesh = Mesh {
        faces,
        work: &*work,
    };
    let place = at + mesh.start_of(h);
    let size = size_at(&*work, place) + share(mesh, h);
    work[place] = size as u32;
}

// Writes the ring sizes of the v vertices from the place `at` on: one pass over the half-edges. Each boundary vertex starts one boundary half-edge.
pub fn count_ring_sizes(faces: &[u32], work: &mut [u32], at: usize, v: usize)
    requires { Countable v at faces.now work.old }
    ensures ring_sizes { RingSizes v at faces.now work.new }
    ensures same_outside { SameOutside at (at + v) work.old work.new }
{
    tables::clear_from(&mut *work, at, v);
    for h in 0..faces.len() {
        count_side(faces, &mut *work, at, v, h);
    }
}

// Whether the table says that vertex p is ordinary.
#[tactic(auto, unfolding(ringsizes::specs::Classes::ordinary_by))]
pub fn is_ordinary(work: &[u32], at: usize, initial: usize, p: usize) -> bool
    requires { at + initial ≤ length work.now }
    ensures { result ≡ ordinary_by work.now at initial p }
{
    initial <= p || size_at(work, at + p) == 4
}

// Where the ring sizes stand, and how many vertices have one: those of the net where refining begins.
#[derive(Clone, Copy)]
pub struct Classes {
    pub at: usize,
    pub initial: usize,
}

impl Classes {
    // Whether the table says that vertex p is ordinary.
    pub fn is_ordinary(self, work: &[u32], p: usize) -> bool
        requires { self.at + self.initial ≤ length work.now }
        ensures { result ≡ ordinary_by work.now self.at self.initial p }
    {
        is_ordinary(work, self.at, self.initial, p)
    }
}
