// Next, prev and face of each half-edge of a net with side counts, built in the caller's work table; read there, or by arithmetic where all faces have four
// sides. Mates and turns in such a net. The number of half-edges stands for 'none'.
#![tactic(auto)]

ghost use Rattle.std.specs.Prelude.{◌≡◌, ◌+◌, ◌*◌, ◌≤◌, ◌<◌, length, get_or, take};
ghost use Rattle.bounds.specs.Bounds.{max_half_edges};
ghost use Rattle.topology.specs.HalfEdge.{mate};
ghost use Rattle.topology.specs.Vertex.{turn};
ghost use Rattle.polygons.specs.Polygons.{side_after, side_before, polygons, shape_of, total};
ghost use Rattle.tables.specs.Tables.{SameOutside};
ghost use Rattle.sidetable.specs.Table.{side_written, ShapeTable, ShapeRoom, Shaped, ShapeBuilt, Linked};

// The side after side j of a face of c sides.
#[tactic(auto, unfolding(polygons::specs::Polygons::side_after))]
fn side_after(c: usize, j: usize) -> usize
    requires { j < 8 }
    ensures { result ≡ side_after c j }
{
    if j + 1 < c { j + 1 } else { 0 }
}

// The side before side j of a face of c sides.
#[tactic(auto, unfolding(polygons::specs::Polygons::side_before))]
fn side_before(c: usize, j: usize) -> usize
    requires { 0 < c }
    ensures { result ≡ side_before c j }
{
    if 0 < j { j - 1 } else { c - 1 }
}

// Writes next, prev and face of the half-edge h.
fn write_side(n: usize, work: &mut [u32], h: usize, next: u32, prev: u32, face: u32)
    requires { (n ≤ max_half_edges) × (h < n) × (7 * n ≤ length work.old) }
    ensures { work.new ≡ side_written n h next prev face work.old }
{
    work[4 * n + h] = next;
    work[5 * n + h] = prev;
    work[6 * n + h] = face;
}

// Writes the half-edges of face f, which begins at a; those of the faces before it are there.
#[tactic(auto, using(crate::proofs::Table::face_sides, crate::proofs::Table::face_number, crate::proofs::Table::face_ends, polygons::proofs::Faces::after_lt, polygons::proofs::Faces::before_lt))]
fn write_face(sides: &[u8], n: usize, work: &mut [u32], f: usize, a: usize)
    requires shape_room { ShapeRoom sides.now n work.old }
    requires f_in_bounds { (f < length sides.now) × (a ≡ total (take f sides.now)) }
    requires shape_table { ShapeTable (polygons sides.now) n work.old a }
    ensures shape_table_2 { ShapeTable (polygons sides.now) n work.new (a + get_or sides.now f 0) }
    ensures same_outside { SameOutside (4 * n) (7 * n) work.old work.new }
{
    let c = sides[f] as usize;
    for j in 0..c {
        let next = (a + side_after(c, j)) as u32;
        let prev = (a + side_before(c, j)) as u32;
        write_side(n, &mut *work, a + j, next, prev, f as u32);
    }
}

// Writes next, prev and face of each of the n half-edges; nothing without side counts.
pub fn build_shape(sides: &[u8], n: usize, work: &mut [u32])
    requires { ShapeRoom sides.now n work.old }
    ensures { ShapeBuilt sides.now n work.old work.new }
{
    let mut a = 0;
    for (f, c) in sides.iter().enumerate() {
        write_face(sides, n, &mut *work, f, a);
        a += *c as usize;
    }
}

// What the table of steps holds at a place, or with four-sided faces alone what arithmetic gives.
fn step<F: FnOnce() -> usize>(sides: &[u8], work: &[u32], place: usize, by_fours: F) -> usize
    requires callable { F.IsAlwaysCallable by_fours }
    requires place_in_bounds { 0 < length sides.now → place < length work.now }
    ensures held { 0 < length sides.now → result ≡ get_or work.now place 0 }
    ensures reckoned { length sides.now ≡ 0 → F.post by_fours result }
{
    if sides.is_empty() {
        by_fours()
    } else {
        work[place] as usize
    }
}

// The half-edge after h round its face.
pub fn next_in(sides: &[u8], work: &[u32], n: usize, h: usize) -> usize
    requires shaped { Shaped sides.now n work.now }
    requires h_lt_n { h < n }
    ensures { result ≡ (shape_of sides.now).next h }
{
    step(sides, work, 4 * n + h, || halfedges::next_side(h))
}

// The half-edge before h round its face.
pub fn prev_in(sides: &[u8], work: &[u32], n: usize, h: usize) -> usize
    requires shaped { Shaped sides.now n work.now }
    requires h_lt_n { h < n }
    ensures { result ≡ (shape_of sides.now).prev h }
{
    step(sides, work, 5 * n + h, || halfedges::prev_side(h))
}

// The face of h.
pub fn face_in(sides: &[u8], work: &[u32], n: usize, h: usize) -> usize
    requires shaped { Shaped sides.now n work.now }
    requires h_lt_n { h < n }
    ensures { result ≡ (shape_of sides.now).face h }
{
    step(sides, work, 6 * n + h, || halfedges::face_of(h))
}

// The corners and the side counts of a net, and the work table that has its mates and its shape.
#[derive(Clone, Copy)]
pub struct PolygonMesh<'a> {
    pub faces: &'a [u32],
    pub sides: &'a [u8],
    pub work: &'a [u32],
    pub ghost linked: { Linked sides.now faces.now work.now },
}

impl<'a> PolygonMesh<'a> {
    // The mate of h, or none.
    pub fn mate(self, h: usize) -> usize
        requires { h < length self.faces.now }
        ensures { result ≡ mate (shape_of self.entry.sides.now) self.entry.faces.now h }
    {
        self.work[h] as usize
    }

    // The half-edge that leaves the vertex of h in the face beyond the side before h, or none.
    pub fn turn(self, h: usize) -> usize
        requires { h < length self.faces.now }
        ensures { result ≡ turn (shape_of self.entry.sides.now) self.entry.faces.now h }
    {
        self.mate(prev_in(self.sides, self.work, self.faces.len(), h))
    }
}
