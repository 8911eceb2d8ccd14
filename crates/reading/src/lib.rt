// A net read from a text in two passes: the first decides refusal 13 and finds where the lines stand, the second stores them.
#![tactic(auto)]

ghost use Rattle.std.specs.Prelude.{◌≡◌, List, [], ◌∷◌, ℕ, ◌+◌, ◌*◌, ◌≤◌, ◌<◌, length, IfSome};
ghost use Rattle.std.specs.Fn.{FnReturnsAt};
ghost use Rattle.std.proofs.lemmas.List.Edits.{sets};
ghost use Rattle.decimalform.specs.Decimal.{Read};
ghost use Rattle.textform.specs.Form as form;
ghost use Rattle.textform.specs.Form.{read_vertex, read_face, rows, parse};
ghost use Rattle.text.specs.Answers.{counts_is, vertex_is, face_is};
ghost use Rattle.reasons.specs.Reasons.{reason_of};
ghost use Rattle.readingform.specs.Loaded.{coordinates_of, marks_of, corners_of, counts_verdict, loaded, read_by};
ghost use Rattle.reading.specs.Answers.{line_of, bare, TakesLine, LinesCounted, head_is, GivesHead, GivesBody, Checks, VerticesStored, answer_of, InputTables};

use limits::{Lengths, Room};
use reasons::{Reason, Refusal};
use text::{Counts, Face, Index, Vertex};

// The program's tables: for 1,024 vertices, and for 256 faces after the rounds, of which each takes at most 12 coordinates, 4 corners, 4 marks, 4 letters and 16 work numbers.
pub const VERTICES: u32 = 1024;

pub const COORDINATES: usize = 3072;

pub const CORNERS: usize = 1024;

pub const MARKS: usize = 1024;

pub const WORK: usize = 4096;

// Lines that have the form, and their bytes.
#[derive(Clone, Copy)]
struct Block {
    good: usize,
    used: usize,
}

// What the first three lines say: the counts, whether letters are asked for, and whether the vertices have marks.
#[derive(Clone, Copy)]
struct Head {
    counts: Counts,
    rule: bool,
    marks: bool,
}

// A text of the form, and where its vertices and its faces start.
#[derive(Clone, Copy)]
struct Form {
    head: Head,
    vertices_at: usize,
    faces_at: usize,
}

// A net that was read: its rounds, whether letters are asked for, and its counts.
#[derive(Clone, Copy)]
pub struct Input {
    pub rounds: u32,
    pub rule: bool,
    pub vertices: usize,
    pub faces: usize,
}

// How many of `count` lines are good before the first bad one, where `line` tells how many bytes a good line takes.
fn count_lines<F: Fn(&[u8]) -> Option<usize>>(text: &[u8], count: usize, line: F) -> Block
    requires callable { F.IsAlwaysCallable line }
    requires within { (l : List ℕ) (r : _) → FnReturnsAt F.Fn line l r → IfSome r (λ n. n ≤ length l) }
    ensures { (read : List ℕ → Read (Unit {0})) → ((l : List ℕ) (r : _) → FnReturnsAt F.Fn line l r → line_of r l ≡ read l) → LinesCounted result text.now (rows read count text.now) }
{
    let mut used: usize = 0;
    for good in 0..count {
        let Some(n) = line(&text[used..]) else {
            return Block { good, used };
        };
        used += n;
    }
    Block { good: count, used }
}

// The first three lines, or the number of the first bad one.
fn check_head(text: &[u8]) -> Result<decimal::Read<Head>, usize>
    ensures { GivesHead result text.now }
{
    let Some(rule) = text::read_input(text) else {
        return Err(1);
    };
    let Some(counts) = text::read_counts(&text[rule.used..]) else {
        return Err(2);
    };
    let at = rule.used + counts.used;
    let Some(marks) = text::read_columns(&text[at..]) else {
        return Err(3);
    };
    Ok(decimal::Read {
        value: Head {
            counts: counts.value,
            rule: rule.value,
            marks: marks.value,
        },
        used: at + marks.used,
    })
}

// Where the faces start, after a head that ends at `at`, or the number of the first bad line.
#[tactic(auto, unfolding(textform::specs::Form::read_face))]
fn check_body(text: &[u8], at: usize, head: Head) -> Result<usize, usize>
    requires { at ≤ length text.now }
    ensures { GivesBody (head_is head) at result text.now }
{
    let v = head.counts.vertices as usize;
    let f = head.counts.faces as usize;
    let marks = head.marks;
    let vs = count_lines(
        &text[at..],
        v,
        |l: &[u8]| -> Option<usize>
            ensures { TakesLine result l.now (bare (read_vertex marks) l.now) }
        { Some(text::read_vertex(l, marks)?.used) },
    );
    if vs.good != v {
        return Err(4 + vs.good);
    }
    let i = at + vs.used;
    if !text[i..].starts_with(b"a b c d\n") {
        return Err(4 + v);
    }
    let j = i + 8;
    let fs = count_lines(
        &text[j..],
        f,
        |l: &[u8]| -> Option<usize>
            ensures { TakesLine result l.now (bare read_face l.now) }
        { Some(text::read_face::<Index>(l)?.used) },
    );
    if fs.good != f {
        return Err(5 + v + fs.good);
    }
    if j + fs.used != text.len() {
        return Err(5 + v + f);
    }
    Ok(j)
}

// The first pass.
fn check(text: &[u8]) -> Result<Form, usize>
    ensures { Checks result text.now }
{
    let head = check_head(text)?;
    let faces_at = check_body(text, head.used, head.value)?;
    Ok(Form {
        head: head.value,
        vertices_at: head.used,
        faces_at,
    })
}

// Refusals 1, 3 and 4 from the counts alone.
#[tactic(auto, unfolding(readingform::specs::Loaded::counts_verdict))]
pub fn test_counts(counts: Counts) -> Result<(), Reason>
    ensures { counts_verdict (counts_is counts) ≡ reason_of result }
{
    let vertices = counts.vertices as usize;
    let faces = counts.faces as usize;
    limits::limits(
        counts.rounds,
        &[],
        Lengths {
            coordinates: 3 * vertices,
            corners: 4 * faces,
            marks: vertices,
            room: Room {
                vertices: COORDINATES,
                faces: CORNERS,
                marks: MARKS,
                with_letters: true,
                letters: MARKS,
                work: WORK,
            },
        },
    )?;
    if VERTICES < counts.vertices {
        return Err(Reason::TableTooShort);
    }
    Ok(())
}

// Stores a vertex as number i of the tables.
pub fn store_vertex(vertex: Vertex, i: usize, vertices: &mut [i32], marks: &mut [u8])
    requires { (3 * i + 3 ≤ length vertices.old) × (i < length marks.old) }
    ensures coordinates { vertices.new ≡ sets vertices.old (3 * i) (coordinates_of (vertex_is vertex ∷ [])) }
    ensures mark { marks.new ≡ sets marks.old i (marks_of (vertex_is vertex ∷ [])) }
{
    vertices[3 * i..3 * i + 3].copy_from_slice(&[vertex.x, vertex.y, vertex.z]);
    marks[i] = vertex.mark;
}

// Stores a face as number i of the table.
pub fn store_face(face: Face, i: usize, faces: &mut [u32])
    requires { 4 * i + 4 ≤ length faces.old }
    ensures { faces.new ≡ sets faces.old (4 * i) (corners_of (face_is face ∷ [])) }
{
    faces[4 * i..4 * i + 4].copy_from_slice(&[face.a, face.b, face.c, face.d]);
}

fn store_vertices(text: &[u8], count: usize, marked: bool, vertices: &mut [i32], marks: &mut [u8])
    requires { (3 * count ≤ length vertices.old) × (count ≤ length marks.old) }
    ensures { VerticesStored (rows (read_vertex marked) count text.now).values vertices.old vertices.new marks.old marks.new }
{
    let mut at: usize = 0;
    for i in 0..count {
        let Some(line) = text::read_vertex(&text[at..], marked) else {
            return;
        };
        store_vertex(line.value, i, &mut *vertices, &mut *marks);
        at += line.used;
    }
}

#[tactic(auto, unfolding(textform::specs::Form::read_face))]
fn store_faces(text: &[u8], count: usize, faces: &mut [u32])
    requires { 4 * count ≤ length faces.old }
    ensures { faces.new ≡ sets faces.old 0 (corners_of (rows read_face count text.now).values) }
{
    let mut at: usize = 0;
    for i in 0..count {
        let Some(line) = text::read_face::<Index>(&text[at..]) else {
            return;
        };
        store_face(line.value, i, &mut *faces);
        at += line.used;
    }
}

// Internal: the program alone calls it, with tables of its own. Reads the net that `text` writes into their front, or refuses and leaves them as they are.
pub fn read_net(
    text: &[u8],
    vertices: &mut [i32],
    faces: &mut [u32],
    marks: &mut [u8],
) -> Result<Input, Refusal>
    requires { InputTables (length vertices.old) (length faces.old) (length marks.old) }
    ensures { loaded (answer_of result) vertices.new faces.new marks.new ≡ read_by parse text.now vertices.old faces.old marks.old }
{
    if text::LONGEST < text.len() {
        return Err(Refusal {
            reason: Reason::MalformedText,
            place: 0,
        });
    }
    let form = match check(text) {
        Ok(form) => form,
        Err(place) => {
            return Err(Refusal {
                reason: Reason::MalformedText,
                place,
            });
        }
    };
    let Head {
        counts,
        rule,
        marks: marked,
    } = form.head;
    test_counts(counts)?;
    let v = counts.vertices as usize;
    let f = counts.faces as usize;
    store_vertices(&text[form.vertices_at..], v, marked, vertices, marks);
    store_faces(&text[form.faces_at..], f, faces);
    Ok(Input {
        rounds: counts.rounds,
        rule,
        vertices: v,
        faces: f,
    })
}
