// A net read from a Wavefront OBJ text in two passes: the first decides refusal 13 and counts vertices and faces, the second stores them.
#![tactic(auto)]

ghost use Rattle.std.specs.Prelude.{◌≡◌, ◌+◌, ◌≤◌, ◌<◌, length, drop};
ghost use Rattle.decimal.specs.Answers.{GivesNumber};
ghost use Rattle.textform.specs.Limits.{longest_text};
ghost use Rattle.readingform.specs.Loaded.{loaded, read_by};
ghost use Rattle.reading.specs.Answers.{answer_of, InputTables};
ghost use Rattle.objform.specs.Form.{skip_to, skip_part, read_corner, read_rounds, parse_obj};
ghost use Rattle.obj.specs.Answers.{StartsAt, item_is, GivesLine, MeetsItem, item_vertices, item_faces, CountsItems, ItemsStored, ItemsRoom, RoomFor, ItemStored};

use decimal::Read;
use reading::Input;
use reasons::{Reason, Refusal};
use text::{Corner, Counts, Face, Vertex};

// What a line after the first says.
#[derive(Clone, Copy)]
enum Item {
    Vertex(Vertex),
    Face(Face),
    Comment,
}

// How many vertices and faces were met.
#[derive(Clone, Copy)]
struct Met {
    vertices: usize,
    faces: usize,
}

// Where the first newline, or byte `stop`, from `at` on stands; the end if there is none.
fn skip_to(text: &[u8], at: usize, stop: u8) -> usize
    requires { at ≤ length text.now }
    ensures { StartsAt (skip_to stop (drop at text.now)) text.now at result }
{
    for i in at..text.len() {
        if text[i] == stop || text[i] == b'\n' {
            return i;
        }
    }
    text.len()
}

// Where a field ends whose number ends at `at`: there, or after what a slash begins.
fn field_end(line: &[u8], at: usize) -> usize
    requires { at ≤ length line.now }
    ensures { StartsAt (skip_part (drop at line.now)) line.now at result }
{
    if line.len() <= at || line[at] != b'/' {
        return at;
    }
    skip_to(line, at + 1, b' ')
}

// A corner of an `f` line: a number from 1 names the vertex one below it, and what a slash begins behind it is skipped.
struct Named;

impl Corner for Named {
    ghost corner = { read_corner };

    fn read(line: &[u8], at: usize, end: u8) -> Option<Read<u32>> {
        let n = decimal::read_natural(&line[at..], decimal::LARGEST)?;
        let vertex = n.value.checked_sub(1)?;
        text::ended(line, vertex, field_end(line, at + n.used), end)
    }
}

// A line after the first, from the front of the text.
fn read_line(text: &[u8]) -> Option<Read<Item>>
    ensures { GivesLine result text.now }
{
    if text.starts_with(b"v ") {
        let v = text::read_vertex(&text[2..], false)?;
        return Some(Read {
            value: Item::Vertex(v.value),
            used: v.used + 2,
        });
    }
    if text.starts_with(b"f ") {
        let f = text::read_face::<Named>(&text[2..])?;
        return Some(Read {
            value: Item::Face(f.value),
            used: f.used + 2,
        });
    }
    if !text.starts_with(b"#") {
        return None;
    }
    let stop = skip_to(text, 1, b'\n');
    if text.len() <= stop {
        return None;
    }
    Some(Read {
        value: Item::Comment,
        used: stop + 1,
    })
}

// The first line.
fn read_rounds(text: &[u8]) -> Option<Read<u32>>
    ensures { GivesNumber result text.now (read_rounds text.now) }
{
    if !text.starts_with(b"# rounds ") {
        return None;
    }
    text::natural_field(text, 9, decimal::LARGEST, b'\n')
}

fn count_item(met: Met, item: Item) -> Met
    requires { (met.vertices < 4294967296) × (met.faces < 4294967296) }
    ensures { MeetsItem (item_is item) met.vertices met.faces result.vertices result.faces }
{
    match item {
        Item::Vertex(_) => Met {
            vertices: met.vertices + 1,
            ..met
        },
        Item::Face(_) => Met {
            faces: met.faces + 1,
            ..met
        },
        Item::Comment => met,
    }
}

// The first pass, over a text that starts with line 2: the counts, or the number of the first bad line.
fn count_items(text: &[u8]) -> Result<Met, usize>
    requires { length text.now ≤ longest_text }
    ensures { CountsItems result text.now }
{
    let mut met = Met {
        vertices: 0,
        faces: 0,
    };
    let mut at: usize = 0;
    let mut line: usize = 2;
    while at < text.len() {
        let Some(item) = read_line(&text[at..]) else {
            return Err(line);
        };
        met = count_item(met, item.value);
        at += item.used;
        line += 1;
    }
    Ok(met)
}

// Stores one item behind those that were met.
fn store_item(
    item: Item,
    met: Met,
    vertices: &mut [i32],
    faces: &mut [u32],
    marks: &mut [u8],
) -> Met
    requires { RoomFor (item_is item) met.vertices met.faces (length vertices.old) (length faces.old) (length marks.old) }
    ensures { ItemStored (item_is item) met.vertices met.faces result.vertices result.faces vertices.old vertices.new faces.old faces.new marks.old marks.new }
{
    match item {
        Item::Vertex(v) => {
            reading::store_vertex(v, met.vertices, vertices, marks);
            Met {
                vertices: met.vertices + 1,
                ..met
            }
        }
        Item::Face(f) => {
            reading::store_face(f, met.faces, faces);
            Met {
                faces: met.faces + 1,
                ..met
            }
        }
        Item::Comment => met,
    }
}

// The second pass, over a text that starts with line 2.
fn store_items(text: &[u8], vertices: &mut [i32], faces: &mut [u32], marks: &mut [u8])
    requires { ItemsRoom (length (item_vertices text.now)) (length (item_faces text.now)) (length vertices.old) (length faces.old) (length marks.old) }
    ensures { ItemsStored (item_vertices text.now) (item_faces text.now) 0 0 vertices.old vertices.new faces.old faces.new marks.old marks.new }
{
    let mut met = Met {
        vertices: 0,
        faces: 0,
    };
    let mut at: usize = 0;
    while at < text.len() {
        let Some(item) = read_line(&text[at..]) else {
            return;
        };
        met = store_item(item.value, met, &mut *vertices, &mut *faces, &mut *marks);
        at += item.used;
    }
}

// Internal: the program alone calls it, with tables of its own. Reads the net that an OBJ text writes into their front, or refuses and leaves them as they are.
pub fn read_net(
    text: &[u8],
    vertices: &mut [i32],
    faces: &mut [u32],
    marks: &mut [u8],
) -> Result<Input, Refusal>
    requires { InputTables (length vertices.old) (length faces.old) (length marks.old) }
    ensures { loaded (answer_of result) vertices.new faces.new marks.new ≡ read_by parse_obj text.now vertices.old faces.old marks.old }
{
    if text::LONGEST < text.len() {
        return Err(Refusal {
            reason: Reason::MalformedText,
            place: 0,
        });
    }
    let Some(rounds) = read_rounds(text) else {
        return Err(Refusal {
            reason: Reason::MalformedText,
            place: 1,
        });
    };
    let items = &text[rounds.used..];
    let met = match count_items(items) {
        Ok(met) => met,
        Err(place) => {
            return Err(Refusal {
                reason: Reason::MalformedText,
                place,
            });
        }
    };
    reading::test_counts(Counts {
        vertices: met.vertices as u32,
        faces: met.faces as u32,
        rounds: rounds.value,
    })?;
    store_items(items, vertices, faces, marks);
    Ok(Input {
        rounds: rounds.value,
        rule: false,
        vertices: met.vertices,
        faces: met.faces,
    })
}
