// Numbers the edges of a net from its mates, in the caller's work table.
#![tactic(auto)]

ghost use Rattle.std.specs.Prelude.{◌≡◌, ◌+◌, ◌<◌, set, take};
ghost use Rattle.search.specs.Search.{count};
ghost use Rattle.tables.specs.Tables.{filled};
ghost use Rattle.edgenumbers.specs.Edges.{met_by, edge_count_by, edge_by, with_edges, PairedIn, NumberedBelow};

// Numbers the edge of half-edge h, where `edges` are met before; the answer is how many are met then.
fn number_side(n: usize, work: &mut [u32], h: usize, edges: usize) -> usize
    requires paired_in { PairedIn n work.old }
    requires numbered_below { NumberedBelow n h work.old }
    requires h_lt_n { (h < n) × (edges ≡ count (met_by (take n work.old)) h) }
    ensures value { result ≡ count (met_by (take n work.old)) (h + 1) }
    ensures work_after { work.new ≡ set work.old (n + h) (edge_by (take n work.old) h) }
{
    let mate = work[h] as usize;
    if h < mate {
        work[n + h] = edges as u32;
        return edges + 1;
    }
    work[n + h] = work[n + mate];
    edges
}

// Numbers the edges of n half-edges as they are first met; the answer is their number. The mates must be there and stay.
pub fn number_edges(n: usize, work: &mut [u32]) -> usize
    requires { PairedIn n work.old }
    ensures value { result ≡ edge_count_by (take n work.old) }
    ensures work_after { work.new ≡ filled (with_edges (take n work.old)) work.old }
{
    let mut edges = 0;
    for h in 0..n {
        edges = number_side(n, &mut *work, h, edges);
    }
    edges
}
