// Which rule makes the point on an edge, by its mate and the marks of its ends.
#![tactic(auto)]

ghost use Rattle.std.specs.Prelude.{◌≡◌, ◌<◌, length};
ghost use Rattle.topology.specs.Shape.{quads};
ghost use Rattle.topology.specs.HalfEdge.{from, to, mate};
ghost use Rattle.scheme.specs.Points.{edge_rule};
ghost use Rattle.nets.specs.Net.{marked};
ghost use Rattle.halfedges.specs.Tables.{Quadrilaterals};
ghost use Rattle.edgerules.specs.Rule.{rule_of};

// Which rule makes the point on an edge.
#[derive(Clone, Copy)]
pub enum EdgeRule {
    InsideSegment,
    StartOfSegment,
    EndOfSegment,
    WholeSegment,
    InnerRule,
}

// Whether vertex v is marked.
pub fn is_marked(marks: &[u8], v: usize) -> bool
    requires { v < length marks.now }
    ensures { result ≡ marked marks.now v }
{
    marks[v] == 1
}

// The rule for the edge of h, by its mate m and the marks of its ends.
pub fn edge_rule(faces: &[u32], marks: &[u8], h: usize, m: usize) -> EdgeRule
    requires quadrilaterals { Quadrilaterals (length faces.now) × (h < length faces.now) × (m ≡ mate quads faces.now h) }
    requires h_in_bounds { (from faces.now h < length marks.now) × (to quads faces.now h < length marks.now) }
    ensures { rule_of result ≡ edge_rule faces.now marks.now h }
{
    if m < faces.len() {
        return EdgeRule::InnerRule;
    }
    let start = is_marked(marks, halfedges::start_of(faces, h));
    let end = is_marked(marks, halfedges::end_of(faces, h));
    match (start, end) {
        (true, true) => EdgeRule::WholeSegment,
        (true, false) => EdgeRule::StartOfSegment,
        (false, true) => EdgeRule::EndOfSegment,
        (false, false) => EdgeRule::InsideSegment,
    }
}
