// The directions of faces, the rule of a face and its point by that rule, from the mates, the entries of the edges and their exact points in the work table.
#![tactic(auto)]

ghost use Rattle.std.specs.Prelude.{◌≡◌, ◌+◌, ◌*◌, ◌^◌, ◌≤◌, ◌<◌, pos, nat_abs, ◌+ℤ◌, length, get_or};
ghost use Rattle.rounding.specs.Rounding.{round};
ghost use Rattle.curve.specs.Weights.{tension};
ghost use Rattle.rings.specs.Scales.{face_scale, edge_range};
ghost use Rattle.coordinates.specs.Points.{put_point};
ghost use Rattle.edgeentries.specs.Entry.{entry_of, unit_of, exact_of};
ghost use Rattle.facerules.specs.Faces.{FaceTable, beyond_of, far_of, direction_of, inner_twice_of, four_inner_of, face_rule_of, face_value_of, face_coordinate};

// Which directions of a face have four inner edges.
#[derive(Clone, Copy)]
pub enum FaceRule {
    FirstAlone,
    SecondAlone,
    BothInner,
    NeitherInner,
}

// Half the denominator of a face point.
fn half_face_scale(t: u32) -> u64
    requires { t ≤ 4 }
    ensures { (2 * result ≡ face_scale (tension t)) × (result ≡ 206438400 * (32 + t)) }
{
    206438400 * (32 + t as u64)
}

// The edges of a round as the pass over its faces reads them: in the work table the mates, the entries and the exact points, at a tension.
#[derive(Clone, Copy)]
pub struct RoundEdges<'a> {
    pub work: &'a [u32],
    pub half_edges: usize,
    pub tension: u32,
    pub ghost table: { FaceTable tension half_edges work.now },
}

impl<'a> RoundEdges<'a> {
    // The mate of h, or the number of half-edges for none.
    fn mate(self, h: usize) -> usize
        requires { h < self.half_edges }
        ensures { result ≡ get_or self.entry.work.now h 0 }
    {
        self.work[h] as usize
    }

    // The entry of the edge of h.
    pub fn entry_at(self, h: usize) -> usize
        requires { h < self.half_edges }
        ensures { (result ≡ entry_of self.entry.half_edges self.entry.work.now h) × (result < 2 ^ 32) }
    {
        edgeentries::entry_at(self.work, self.half_edges, h)
    }

    // The entry of the edge beyond the side h.
    pub fn beyond(self, h: usize) -> usize
        requires { (h < self.half_edges) × (get_or self.work.now h 0 < self.half_edges) }
        ensures { (result ≡ entry_of self.entry.half_edges self.entry.work.now (beyond_of self.entry.work.now h)) × (result < 2 ^ 32) }
    {
        self.entry_at(halfedges::across_side(self.mate(h)))
    }

    // What makes a stored numerator of the entry e one over `edge_scale`.
    fn unit(self, e: usize) -> i64
        ensures { result ≡ pos (unit_of (tension self.entry.tension) e) }
    {
        if edgeentries::is_plain(e) || edgeentries::is_boundary(e) {
            return rings::virtual_scale(self.tension);
        }
        1
    }

    // Coordinate a of the exact point of the edge of h, over `edge_scale`.
    #[inline(always)]
    fn exact_on(self, h: usize, a: usize) -> i64
        requires { (h < self.half_edges) × (a < 3) }
        ensures { result ≡ exact_of (tension self.entry.tension) self.entry.half_edges self.entry.work.now a h }
    {
        let e = self.entry_at(h);
        let z = edgeentries::exact_at(self.work, self.half_edges, e, a);
        self.unit(e) * z
    }

    // Coordinate a beyond the side h: x is that of h, y that of the opposite side.
    #[inline(always)]
    fn far_on(self, h: usize, x: i64, y: i64, a: usize) -> i64
        requires { (h < self.half_edges) × (a < 3) × (nat_abs x ≤ edge_range (tension self.tension)) × (nat_abs y ≤ edge_range (tension self.tension)) }
        ensures { result ≡ far_of (tension self.entry.tension) self.entry.half_edges self.entry.work.now a h x y }
    {
        let m = self.mate(h);
        if m < self.half_edges {
            return self.exact_on(halfedges::across_side(m), a);
        }
        curve::mirrored(x, y)
    }

    // Coordinate a of the direction of the side h.
    #[inline(always)]
    fn direction_on(self, h: usize, a: usize) -> i64
        requires { (h < self.half_edges) × (a < 3) }
        ensures { result ≡ direction_of (tension self.entry.tension) self.entry.half_edges self.entry.work.now a h }
    {
        let g = halfedges::across_side(h);
        let x = self.exact_on(h, a);
        let y = self.exact_on(g, a);
        let u = self.far_on(h, x, y, a);
        let v = self.far_on(g, y, x, a);
        curve::four_point(u, x, y, v, self.tension)
    }

    // Whether h has a mate and the edge beyond it is an inner edge.
    fn inner_twice(self, h: usize) -> bool
        requires { h < self.half_edges }
        ensures { result ≡ inner_twice_of self.entry.half_edges self.entry.work.now h }
    {
        self.mate(h) < self.half_edges && !edgeentries::is_boundary(self.beyond(h))
    }

    // Whether the direction of the side h has four inner edges.
    fn four_inner(self, h: usize) -> bool
        requires { h < self.half_edges }
        ensures { result ≡ four_inner_of self.entry.half_edges self.entry.work.now h }
    {
        self.inner_twice(h) && self.inner_twice(halfedges::across_side(h))
    }

    // The rule of face f.
    fn face_rule(self, f: usize) -> FaceRule
        requires { 4 * f < self.half_edges }
        ensures { result ≡ face_rule_of self.entry.half_edges self.entry.work.now f }
    {
        let h = 4 * f;
        let first = self.four_inner(h);
        let second = self.four_inner(h + 1);
        match (first, second) {
            (true, true) => FaceRule::BothInner,
            (true, false) => FaceRule::FirstAlone,
            (false, true) => FaceRule::SecondAlone,
            (false, false) => FaceRule::NeitherInner,
        }
    }

    // Coordinate a of the direction of the side h, where u is that of the side g: a direction that counts alone is computed once.
    #[inline(always)]
    fn second_direction(self, g: usize, u: i64, h: usize, a: usize) -> i64
        requires h_in_bounds { (h < self.half_edges) × (a < 3) }
        requires first { u ≡ direction_of (tension self.tension) self.half_edges self.work.now a g }
        ensures { result ≡ direction_of (tension self.entry.tension) self.entry.half_edges self.entry.work.now a h }
    {
        if g == h {
            return u;
        }
        self.direction_on(h, a)
    }

    // Coordinate a of the mean of the directions of the sides g and h, rounded.
    #[inline(always)]
    fn mean_on(self, g: usize, h: usize, a: usize) -> i32
        requires { (g < self.half_edges) × (h < self.half_edges) × (a < 3) }
        ensures { result ≡ round (direction_of (tension self.entry.tension) self.entry.half_edges self.entry.work.now a g +ℤ direction_of (tension self.entry.tension) self.entry.half_edges self.entry.work.now a h) (face_scale (tension self.entry.tension)) }
    {
        let u = self.direction_on(g, a);
        let v = self.second_direction(g, u, h, a);
        rounding::round_div(u + v, half_face_scale(self.tension)) as i32
    }

    // Coordinate a of the point of face f by a rule: a direction that counts alone is its mean with itself.
    #[inline(always)]
    fn face_on(self, f: usize, rule: FaceRule, a: usize) -> i32
        requires { (4 * f < self.half_edges) × (a < 3) }
        ensures { result ≡ round (face_value_of (tension self.entry.tension) self.entry.half_edges self.entry.work.now a f rule) (face_scale (tension self.entry.tension)) }
    {
        let g = 4 * f;
        let h = g + 1;
        match rule {
            FaceRule::FirstAlone => self.mean_on(g, g, a),
            FaceRule::SecondAlone => self.mean_on(h, h, a),
            FaceRule::BothInner | FaceRule::NeitherInner => self.mean_on(g, h, a),
        }
    }

    // Writes the point of face f by its rule.
    #[inline(always)]
    pub fn general_face(self, out: &mut [i32], f: usize)
        requires { (4 * f < self.half_edges) × (3 * f + 3 ≤ length out.old) }
        ensures { out.new ≡ put_point out.old f (face_coordinate (tension self.entry.tension) self.entry.half_edges self.entry.work.now 0 f) (face_coordinate (tension self.entry.tension) self.entry.half_edges self.entry.work.now 1 f) (face_coordinate (tension self.entry.tension) self.entry.half_edges self.entry.work.now 2 f) }
    {
        let rule = self.face_rule(f);
        // One by one and inlined: the three axes read the same entries.
        let x = self.face_on(f, rule, 0);
        let y = self.face_on(f, rule, 1);
        let z = self.face_on(f, rule, 2);
        coordinates::put_point(&mut *out, f, x, y, z);
    }
}
