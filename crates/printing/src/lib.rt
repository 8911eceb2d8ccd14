// The program's answers, written into a buffer.
#![tactic(auto)]

ghost use Rattle.std.specs.Prelude.{◌≡◌, ℕ, List, true, ◌+◌, ◌*◌, ◌≤◌, ◌<◌, length, get_or};
ghost use Rattle.decimalform.specs.Decimal.{natural_text, integer_text};
ghost use Rattle.textform.specs.Text.{field, pair_text, numbers_text, columns_text, end_text, lettered_text, face_text, texts, refusal_text};
ghost use Rattle.printingform.specs.Tables.{lettered_of, faces_of, columns_room, end_room, room_for, tables_text};
ghost use Rattle.printingform.specs.Lines.{vertex_is, face_is, Printed, TextWritten};

fn put_bytes(out: &mut [u8], at: usize, s: &[u8]) -> usize
    requires { at + length s.now ≤ length out.old }
    ensures { Printed out.old out.new at result s.now (length s.now) }
{
    out[at..at + s.len()].copy_from_slice(s);
    at + s.len()
}

// A number as it is printed: its text, and the most bytes that it takes.
trait Number: Copy {
    ghost text: { Self → List ℕ };

    ghost most: { ℕ };

    // Writes the number from `at` on, and answers where it ends.
    fn put(self, out: &mut [u8], at: usize) -> usize
        requires { at + most ≤ length out.old }
        ensures { Printed out.old out.new at result (text self) most };
}

impl Number for u8 {
    ghost text = { natural_text };

    ghost most = { 3 };

    fn put(self, out: &mut [u8], at: usize) -> usize {
        decimal::put_natural(out, at, u64::from(self))
    }
}

impl Number for u32 {
    ghost text = { natural_text };

    ghost most = { 10 };

    fn put(self, out: &mut [u8], at: usize) -> usize {
        decimal::put_natural(out, at, u64::from(self))
    }
}

impl Number for u64 {
    ghost text = { natural_text };

    ghost most = { 20 };

    fn put(self, out: &mut [u8], at: usize) -> usize {
        decimal::put_natural(out, at, self)
    }
}

impl Number for i32 {
    ghost text = { integer_text };

    ghost most = { 11 };

    fn put(self, out: &mut [u8], at: usize) -> usize {
        decimal::put_integer(out, at, self)
    }
}

// A number and the byte after it.
fn put_field<N: Number>(out: &mut [u8], at: usize, n: N, end: u8) -> usize
    requires { at + N.most + 1 ≤ length out.old }
    ensures { Printed out.old out.new at result (field (N.text n) end) (N.most + 1) }
{
    let stop = n.put(&mut *out, at);
    out[stop] = end;
    stop + 1
}

// A line of two numbers.
fn put_pair(out: &mut [u8], at: usize, a: u64, b: u64) -> usize
    requires { at + 42 ≤ length out.old }
    ensures { Printed out.old out.new at result (pair_text a b) 42 }
{
    let i = put_field(&mut *out, at, a, b' ');
    put_field(&mut *out, i, b, b'\n')
}

// The numbers of a vertex.
fn put_numbers(out: &mut [u8], at: usize, x: i32, y: i32, z: i32, mark: u8) -> usize
    requires { at + 39 ≤ length out.old }
    ensures { Printed out.old out.new at result (numbers_text (vertex_is x y z mark)) 39 }
{
    let i = put_field(&mut *out, at, x, b' ');
    let j = put_field(&mut *out, i, y, b' ');
    let k = put_field(&mut *out, j, z, b' ');
    mark.put(out, k)
}

// The end of a vertex line: letter i, if letters are asked for, and the newline.
fn put_end(out: &mut [u8], at: usize, rule: bool, letters: &[u8], i: usize) -> usize
    requires { (at + end_room rule ≤ length out.old) × (rule ≡ true → i < length letters.now) }
    ensures { Printed out.old out.new at result (end_text rule (get_or letters.now i 0)) (end_room rule) }
{
    if rule {
        put_bytes(out, at, &[b' ', letters[i], b'\n'])
    } else {
        put_bytes(out, at, b"\n")
    }
}

fn put_face(out: &mut [u8], at: usize, a: u32, b: u32, c: u32, d: u32) -> usize
    requires { at + 44 ≤ length out.old }
    ensures { Printed out.old out.new at result (face_text (face_is a b c d)) 44 }
{
    let i = put_field(&mut *out, at, a, b' ');
    let j = put_field(&mut *out, i, b, b' ');
    let k = put_field(&mut *out, j, c, b' ');
    put_field(&mut *out, k, d, b'\n')
}

fn put_vertices(
    out: &mut [u8],
    at: usize,
    count: usize,
    vertices: &[i32],
    marks: &[u8],
    rule: bool,
    letters: &[u8],
) -> usize
    requires { (at + (39 + end_room rule) * count ≤ length out.old) × (3 * count ≤ length vertices.now) × (count ≤ length marks.now) × (rule ≡ true → count ≤ length letters.now) }
    ensures { Printed out.old out.new at result (texts (lettered_text rule) (lettered_of count vertices.now marks.now letters.now)) ((39 + end_room rule) * count) }
{
    let mut to = at;
    for i in 0..count {
        let x = vertices[3 * i];
        let y = vertices[3 * i + 1];
        let z = vertices[3 * i + 2];
        let end = put_numbers(&mut *out, to, x, y, z, marks[i]);
        to = put_end(&mut *out, end, rule, letters, i);
    }
    to
}

fn put_faces(out: &mut [u8], at: usize, count: usize, faces: &[u32]) -> usize
    requires { (at + 44 * count ≤ length out.old) × (4 * count ≤ length faces.now) }
    ensures { Printed out.old out.new at result (texts face_text (faces_of count faces.now)) (44 * count) }
{
    let mut to = at;
    for i in 0..count {
        let a = faces[4 * i];
        let b = faces[4 * i + 1];
        let c = faces[4 * i + 2];
        let d = faces[4 * i + 3];
        to = put_face(&mut *out, to, a, b, c, d);
    }
    to
}

// The names of the columns of an answer.
fn put_columns(out: &mut [u8], at: usize, rule: bool) -> usize
    requires { at + columns_room rule ≤ length out.old }
    ensures { Printed out.old out.new at result (columns_text rule) (columns_room rule) }
{
    if rule {
        put_bytes(out, at, b"x y z corner rule\n")
    } else {
        put_bytes(out, at, b"x y z corner\n")
    }
}

// Writes the answer with v vertices and f faces, with letters if `rule` is asked for, and gives its length.
pub fn write_net(
    out: &mut [u8],
    vertices: &[i32],
    faces: &[u32],
    marks: &[u8],
    rule: bool,
    letters: &[u8],
    v: usize,
    f: usize,
) -> usize
    requires { (3 * v ≤ length vertices.now) × (4 * f ≤ length faces.now) × (v ≤ length marks.now) × (rule ≡ true → v ≤ length letters.now) × (room_for rule v f ≤ length out.old) }
    ensures { TextWritten out.old out.new result (tables_text rule v f vertices.now faces.now marks.now letters.now) (room_for rule v f) }
{
    let a = put_bytes(&mut *out, 0, b"vertices faces\n");
    let b = put_pair(&mut *out, a, v as u64, f as u64);
    let c = put_columns(&mut *out, b, rule);
    let d = put_vertices(&mut *out, c, v, vertices, marks, rule, letters);
    let e = put_bytes(&mut *out, d, b"a b c d\n");
    put_faces(&mut *out, e, f, faces)
}

// Writes a refusal, and gives its length.
pub fn write_refusal(out: &mut [u8], reason: u32, place: usize) -> usize
    requires { 56 ≤ length out.old }
    ensures { TextWritten out.old out.new result (refusal_text reason place) 56 }
{
    let a = put_bytes(&mut *out, 0, b"refusal place\n");
    put_pair(&mut *out, a, reason as u64, place as u64)
}
