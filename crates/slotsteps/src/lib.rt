// One half-edge put into a slot, and one mate taken from a slot: the steps of the walk over the chains.
#![tactic(auto)]

ghost use Rattle.std.specs.Prelude.{◌≡◌, ◌+◌, ◌*◌, ◌≤◌, ◌<◌, length, get_or, drop};
ghost use Rattle.bounds.specs.Bounds.{max_corners};
ghost use Rattle.polygons.specs.Polygons.{shape_of};
ghost use Rattle.tables.specs.Tables.{SameOutside};
ghost use Rattle.topology.specs.HalfEdge.{mate};
ghost use Rattle.adjacency.specs.Chains.{side, Tables};
ghost use Rattle.slotsteps.specs.Slots.{slot_of, SlotTables, Slots, Served, Putting, Taking, Lesser};

// Whether the half-edge g runs from the vertex a to the vertex b.
#[tactic(auto, unfolding(adjacency::specs::Chains::side, topology::specs::HalfEdge::from, topology::specs::HalfEdge::to))]
fn runs(faces: &[u32], sides: &[u8], work: &[u32], g: usize, a: usize, b: usize) -> bool
    requires tables { Tables sides.now faces.now work.now }
    requires g_in_bounds { g < length faces.now }
    ensures { result ≡ side (shape_of sides.now) faces.now a b g }
{
    faces[g] as usize == a && adjacency::entered(faces, sides, work, g) == b
}

// What stands in the slot of the vertex b.
fn slot_of(faces: &[u32], work: &[u32], b: usize) -> usize
    requires { (length faces.now ≤ max_corners) × (b < length faces.now) × (4 * length faces.now ≤ length work.now) }
    ensures { result ≡ slot_of faces.now work.now b }
{
    work[3 * faces.len() + b] as usize
}

// The lesser of `bad` and g, if s lies before g.
fn lesser(s: usize, g: usize, bad: usize) -> usize
    ensures { Lesser s g bad result }
{
    if s < g { bad.min(g) } else { bad }
}

// Puts the half-edge g, which leaves the vertex a, into the slot of the vertex that it enters, unless an earlier one from a is there.
pub fn put_slot(
    faces: &[u32],
    sides: &[u8],
    nv: usize,
    work: &mut [u32],
    a: usize,
    g: usize,
    bad: usize,
) -> usize
    requires slot_tables { SlotTables nv sides.now faces.now work.old }
    requires putting { Putting (shape_of sides.now) nv faces.now work.old a g bad }
    requires g_in_bounds { (g < length faces.now) × (get_or faces.now g 0 ≡ a) }
    ensures putting_2 { Putting (shape_of sides.now) nv faces.now work.new a (g + 1) result }
    ensures same_outside { SameOutside (3 * length faces.now) (4 * length faces.now) work.old work.new }
{
    let b = adjacency::entered(faces, sides, &*work, g);
    let s = slot_of(faces, &*work, b);
    if runs(faces, sides, &*work, s, a, b) {
        return lesser(s, g, bad);
    }
    work[3 * faces.len() + b] = g as u32;
    bad
}

// The mate of p, which enters the vertex a, or the number of half-edges. Those that leave a are in slots.
fn served_mate(faces: &[u32], sides: &[u8], nv: usize, work: &[u32], a: usize, p: usize) -> usize
    requires slot_tables { SlotTables nv sides.now faces.now work.now }
    requires slots { Slots (shape_of sides.now) nv faces.now work.now }
    requires served { Served (shape_of sides.now) faces.now work.now a (length faces.now) }
    requires p_in_bounds { (p < length faces.now) × (get_or faces.now ((shape_of sides.now).next p) 0 ≡ a) }
    ensures { result ≡ mate (shape_of sides.now) faces.now p }
{
    let b = faces[p] as usize;
    let s = slot_of(faces, work, b);
    if runs(faces, sides, work, s, a, b) {
        return s;
    }
    faces.len()
}

// Writes the mate of the half-edge before g, which leaves the vertex a.
#[tactic(auto, using(adjacency::proofs::Chains::prev_within))]
pub fn take_slot(faces: &[u32], sides: &[u8], nv: usize, work: &mut [u32], a: usize, g: usize)
    requires slot_tables { SlotTables nv sides.now faces.now work.old }
    requires slots { Slots (shape_of sides.now) nv faces.now work.old }
    requires served { Served (shape_of sides.now) faces.now work.old a (length faces.now) }
    requires taking { Taking (shape_of sides.now) faces.now work.old a g }
    requires g_in_bounds { (g < length faces.now) × (get_or faces.now g 0 ≡ a) }
    ensures taking_2 { Taking (shape_of sides.now) faces.now work.new a (g + 1) }
    ensures work_unchanged { drop (length faces.now) work.new ≡ drop (length faces.now) work.old }
{
    let p = sidetable::prev_in(sides, &*work, faces.len(), g);
    work[p] = served_mate(faces, sides, nv, &*work, a, p) as u32;
}
