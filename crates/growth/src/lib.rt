// How many vertices a net has after refinement steps, from its mates and its counts, and whether a tally can take the new ones.
#![tactic(auto)]

ghost use Rattle.std.specs.Prelude.{◌≡◌, ◌+◌, ◌≤◌, ltb, length};
ghost use Rattle.bounds.specs.Bounds.{max_corners, max_half_edges, max_tally};
ghost use Rattle.polygons.specs.Polygons.{shape_of};
ghost use Rattle.edgenumbers.specs.Edges.{edge_count_by};
ghost use Rattle.growth.specs.Growth.{counts, counts_of, grown_by, splits, Bounded, Growable};

// The number of edges: how many half-edges come before their mates or have none.
fn edge_count(mates: &[u32]) -> usize
    requires { length mates.now ≤ max_half_edges }
    ensures { result ≡ edge_count_by mates.now }
{
    let mut edges: u32 = 0;
    for (h, mate) in mates.iter().enumerate() {
        edges += u32::from((h as u32) < *mate);
    }
    edges as usize
}

// The number of vertices after so many refinement steps on a net of v vertices.
fn vertices_after(v: usize, edges: usize, faces: usize, corners: usize, steps: u32) -> usize
    requires bounded { Bounded (counts v edges faces corners) }
    requires corners_le_max_corners { (corners ≤ max_corners) × (steps ≤ 7) }
    ensures { result ≡ (grown_by steps (counts v edges faces corners)).vertices }
{
    let mut vertices = v;
    let mut e = edges;
    let mut f = faces;
    let mut n = corners;
    for _k in 0..steps {
        let refined = 4 * n;
        vertices = vertices + e + f;
        e = 2 * e + n;
        f = n;
        n = refined;
    }
    vertices
}

// The number of vertices after all rounds on a net of v vertices, the split among the steps; the mates stand at the front of the work table.
pub fn final_vertices(rounds: u32, faces: &[u32], sides: &[u8], v: usize, work: &[u32]) -> usize
    requires { Growable rounds faces.now sides.now v work.now }
    ensures { result ≡ (grown_by (rounds + splits sides.now) (counts_of (shape_of sides.now) v faces.now)).vertices }
{
    let n = faces.len();
    if rounds == 0 && sides.len() == 0 {
        return v;
    }
    let edges = edge_count(&work[..n]);
    if sides.len() == 0 {
        return vertices_after(v, edges, n / 4, n, rounds);
    }
    vertices_after(v, edges, sides.len(), n, rounds + 1)
}

// Whether a tally of `points` would pass its limit with `new` points more.
pub fn exceeds(points: u64, new: u64) -> bool
    requires { new ≤ max_tally }
    ensures { result ≡ ltb max_tally (points + new) }
{
    bounds::MAX_TALLY - new < points
}
