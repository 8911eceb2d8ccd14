// The mates of one round's refined faces, in place on the work table.
#![tactic(auto)]

ghost use Rattle.std.specs.Prelude.{◌≡◌, true, ℕ, ◌+◌, ◌*◌, ◌/◌, ◌%◌, get_or, take};
ghost use Rattle.topology.specs.Shape.{quads};
ghost use Rattle.refinedfaces.specs.Mates.{refined_mate, refined_mates};
ghost use Rattle.tables.specs.Tables.{filled, Written};
ghost use Rattle.roundmates.specs.Mates.{SidesIn, MatesIn, FirstMates, LaterIn};

// Writes the mates of the refined faces of face f, the last first, from the mates a to d of its sides; `first` makes of side i and its mate the mate of side 0 there.
fn refine_sides<F: Fn(u32, u32) -> u32>(work: &mut [u32], n: usize, f: usize, first: &F)
    requires sides { SidesIn n f work.old }
    requires firsts { FirstMates (F.pre first.now) (F.post first.now) n (4 * f) (4 * f + 4) work.old }
    ensures { Written (16 * f) (16 * f + 16) (λ (k : ℕ). refined_mate quads n (λ (h : ℕ). get_or work.old h 0) (k / 4) (k % 4)) work.old work.new }
{
    let h = 4 * f;
    let at = 16 * f;
    let a = work[h];
    let b = work[h + 1];
    let c = work[h + 2];
    let d = work[h + 3];
    let p = first(0, a);
    let q = first(1, b);
    let r = first(2, c);
    let s = first(3, d);
    let g = at as u32;
    tables::put_four(&mut *work, at + 12, s, g + 2, g + 9, 4 * c);
    tables::put_four(&mut *work, at + 8, r, g + 14, g + 5, 4 * b);
    tables::put_four(&mut *work, at + 4, q, g + 10, g + 1, 4 * a);
    tables::put_four(&mut *work, at, p, g + 6, g + 13, 4 * d);
}

// Refines the mates in place, from the last face to the first.
fn refine_mates<F: Fn(u32, u32) -> u32>(work: &mut [u32], n: usize, first: F)
    requires mates { MatesIn n work.old }
    requires firsts { FirstMates (F.pre first) (F.post first) n 0 n work.old }
    ensures { work.new ≡ filled (refined_mates quads (take n work.old)) work.old }
{
    for f in (0..n / 4).rev() {
        refine_sides(&mut *work, n, f, &first);
    }
}

// Refines the mates, by whether a round made the net.
pub fn next_mates(work: &mut [u32], n: usize, later: bool)
    requires { MatesIn n work.old × (later ≡ true → LaterIn n work.old) }
    ensures { work.new ≡ filled (refined_mates quads (take n work.old)) work.old }
{
    let none = n as u32;
    if later {
        refine_mates(&mut *work, n, |i, m| sidemates::later_mate(none, i, m));
        return;
    }
    refine_mates(&mut *work, n, |_, m| sidemates::first_mate(none, m));
}
