// The lines of the text form, each read from the front of a slice. An answer has the values and the number of bytes that they took.
#![tactic(auto)]

ghost use Rattle.std.specs.Prelude.{ℕ, List, ◌≤◌, length, drop};
ghost use Rattle.decimalform.specs.Decimal as form;
ghost use Rattle.decimal.specs.Answers.{Gives, GivesNumber};
ghost use Rattle.textform.specs.Form.{read_input, read_columns, ended_by, coordinate, natural, index, read_counts, read_vertex, face_by};
ghost use Rattle.text.specs.Answers.{columns_is, counts_is, vertex_is, face_is};

use decimal::Read;

// The most bytes that a text may have.
pub const LONGEST: usize = 32768;

#[derive(Clone, Copy)]
pub struct Counts {
    pub vertices: u32,
    pub faces: u32,
    pub rounds: u32,
}

#[derive(Clone, Copy)]
pub struct Vertex {
    pub x: i32,
    pub y: i32,
    pub z: i32,
    pub mark: u8,
}

#[derive(Clone, Copy)]
pub struct Face {
    pub a: u32,
    pub b: u32,
    pub c: u32,
    pub d: u32,
}

// The first line, with its newline: whether it has the word `rule`.
pub fn read_input(text: &[u8]) -> Option<Read<bool>>
    ensures { GivesNumber result text.now (read_input text.now) }
{
    if text.starts_with(b"vertices faces rounds\n") {
        return Some(Read {
            value: false,
            used: 22,
        });
    }
    if text.starts_with(b"vertices faces rounds rule\n") {
        return Some(Read {
            value: true,
            used: 27,
        });
    }
    None
}

// The names of the columns, with their newline: whether `corner` is among them.
pub fn read_columns(text: &[u8]) -> Option<Read<bool>>
    ensures { Gives columns_is result text.now (read_columns text.now) }
{
    if text.starts_with(b"x y z corner\n") {
        return Some(Read {
            value: true,
            used: 13,
        });
    }
    if text.starts_with(b"x y z\n") {
        return Some(Read {
            value: false,
            used: 6,
        });
    }
    None
}

// A value that ends at `stop`, and the byte `end` there; the answer's length counts from the start of the line.
pub fn ended<T: Copy>(line: &[u8], value: T, stop: usize, end: u8) -> Option<Read<T>>
    ensures { GivesNumber result line.now (ended_by end (form.read_as value (drop stop line.now))) }
{
    if line.len() <= stop || line[stop] != end {
        return None;
    }
    Some(Read {
        value,
        used: stop + 1,
    })
}

// The number at `at` and the byte `end` after it.
pub fn natural_field(line: &[u8], at: usize, limit: u32, end: u8) -> Option<Read<u32>>
    requires { at ≤ length line.now }
    ensures { GivesNumber result line.now (natural limit end (drop at line.now)) }
{
    let n = decimal::read_natural(&line[at..], limit)?;
    ended(line, n.value, at + n.used, end)
}

fn integer_field(line: &[u8], at: usize, end: u8) -> Option<Read<i32>>
    requires { at ≤ length line.now }
    ensures { GivesNumber result line.now (coordinate end (drop at line.now)) }
{
    let z = decimal::read_integer(&line[at..])?;
    ended(line, z.value, at + z.used, end)
}

#[tactic(auto, unfolding(textform::specs::Form::read_counts))]
pub fn read_counts(line: &[u8]) -> Option<Read<Counts>>
    ensures { Gives counts_is result line.now (read_counts line.now) }
{
    let v = natural_field(line, 0, decimal::LARGEST, b' ')?;
    let f = natural_field(line, v.used, decimal::LARGEST, b' ')?;
    let k = natural_field(line, f.used, decimal::LARGEST, b'\n')?;
    Some(Read {
        value: Counts {
            vertices: v.value,
            faces: f.value,
            rounds: k.value,
        },
        used: k.used,
    })
}

// With a mark, or without one, which is 0.
#[tactic(auto, using(textform::proofs::Lines::natural_limit), unfolding(textform::specs::Form::read_vertex))]
pub fn read_vertex(line: &[u8], marked: bool) -> Option<Read<Vertex>>
    ensures { Gives vertex_is result line.now (read_vertex marked line.now) }
{
    let x = integer_field(line, 0, b' ')?;
    let y = integer_field(line, x.used, b' ')?;
    if marked {
        let z = integer_field(line, y.used, b' ')?;
        let m = natural_field(line, z.used, 255, b'\n')?;
        return Some(Read {
            value: Vertex {
                x: x.value,
                y: y.value,
                z: z.value,
                mark: m.value as u8,
            },
            used: m.used,
        });
    }
    let z = integer_field(line, y.used, b'\n')?;
    Some(Read {
        value: Vertex {
            x: x.value,
            y: y.value,
            z: z.value,
            mark: 0,
        },
        used: z.used,
    })
}

// A way to read a corner of a face.
pub trait Corner {
    // what the form says of it
    ghost corner: { ℕ → List ℕ → form.Read ℕ };

    // The corner at `at` and the byte `end` after it; the answer's length counts from the start of the line.
    fn read(line: &[u8], at: usize, end: u8) -> Option<Read<u32>>
        requires { at ≤ length line.now }
        ensures { GivesNumber result line.now (corner end (drop at line.now)) };
}

// A corner of the text form: the number of a vertex.
pub struct Index;

impl Corner for Index {
    ghost corner = { index };

    fn read(line: &[u8], at: usize, end: u8) -> Option<Read<u32>> {
        natural_field(line, at, decimal::LARGEST, end)
    }
}

// Four corners.
pub fn read_face<C: Corner>(line: &[u8]) -> Option<Read<Face>>
    ensures { Gives face_is result line.now (face_by C.corner line.now) }
{
    let a = C::read(line, 0, b' ')?;
    let b = C::read(line, a.used, b' ')?;
    let c = C::read(line, b.used, b' ')?;
    let d = C::read(line, c.used, b'\n')?;
    Some(Read {
        value: Face {
            a: a.value,
            b: b.value,
            c: c.value,
            d: d.value,
        },
        used: d.used,
    })
}
