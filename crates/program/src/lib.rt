// The program between its input and its output.
#![tactic(auto)]

ghost use Rattle.std.specs.Prelude.{◌≡◌, ◌≤◌, [], length};
ghost use Rattle.nets.specs.Net.{net, plain};
ghost use Rattle.verdict.specs.Call.{lengths_of};
ghost use Rattle.verdict.specs.Verdict.{accepted, limits_verdict};
ghost use Rattle.readingform.specs.Loaded.{program_room, loaded, read_by};
ghost use Rattle.reading.specs.Answers.{answer_of, InputTables};
ghost use Rattle.printingform.specs.Lines.{TextWritten};
ghost use Rattle.printingform.specs.Tables.{answer_room};
ghost use Rattle.programform.specs.Answer.{refined_text, parse_any, program_text};
ghost use Rattle.programform.specs.Input.{input_room, InputAnswered};

use nets::Net;
use reading::Input;
use reasons::Refusal;

// The input buffer has one byte more than the longest text; the other holds every answer.
pub const INPUT_ROOM: usize = 32769;

pub const ANSWER_ROOM: usize = 54355;

// The answer to a net whose counts pass, with letters if `rule` is asked for.
fn refine_net(
    rounds: u32,
    rule: bool,
    vertices: &[i32],
    faces: &[u32],
    marks: &[u8],
    out: &mut [u8],
) -> usize
    requires { (limits_verdict rounds [] (lengths_of (plain (net vertices.now faces.now marks.now)) program_room) ≡ accepted) × (answer_room ≤ length out.old) }
    ensures { TextWritten out.old out.new result (refined_text rounds rule (net vertices.now faces.now marks.now)) answer_room }
{
    let mut out_vertices = [0i32; reading::COORDINATES];
    let mut out_faces = [0u32; reading::CORNERS];
    let mut out_marks = [0u8; reading::MARKS];
    let mut letters = [0u8; reading::MARKS];
    let mut work = [0u32; reading::WORK];
    let none = [0u8; 0];
    let answer = refine::refine(
        0,
        rounds,
        Net {
            vertices,
            faces,
            sides: &none,
            marks,
        },
        4,
        &mut out_vertices,
        &mut out_faces,
        &mut out_marks,
        rule,
        &mut letters,
        &mut work,
    );
    match answer {
        Ok(counts) => printing::write_net(
            out,
            &out_vertices,
            &out_faces,
            &out_marks,
            rule,
            &letters,
            counts.vertices,
            counts.faces,
        ),
        Err(refusal) => printing::write_refusal(out, refusal.reason.number(), refusal.place),
    }
}

// Reads the net that `text` writes, as OBJ if its first byte is `#`, into the front of the tables, or refuses and leaves them as they are.
fn read_any(
    text: &[u8],
    vertices: &mut [i32],
    faces: &mut [u32],
    marks: &mut [u8],
) -> Result<Input, Refusal>
    requires { InputTables (length vertices.old) (length faces.old) (length marks.old) }
    ensures { loaded (answer_of result) vertices.new faces.new marks.new ≡ read_by parse_any text.now vertices.old faces.old marks.old }
{
    if text.starts_with(b"#") {
        obj::read_net(text, vertices, faces, marks)
    } else {
        reading::read_net(text, vertices, faces, marks)
    }
}

// Writes the answer to `text` into `out`, and gives its length.
fn answer_text(text: &[u8], out: &mut [u8]) -> usize
    requires { answer_room ≤ length out.old }
    ensures { TextWritten out.old out.new result (program_text text.now) answer_room }
{
    let mut vertices = [0i32; reading::COORDINATES];
    let mut faces = [0u32; reading::CORNERS];
    let mut marks = [0u8; reading::MARKS];
    match read_any(text, &mut vertices, &mut faces, &mut marks) {
        Ok(net) => refine_net(
            net.rounds,
            net.rule,
            &vertices[..3 * net.vertices],
            &faces[..4 * net.faces],
            &marks[..net.vertices],
            out,
        ),
        Err(refusal) => { printing::write_refusal(out, refusal.reason.number(), refusal.place) }
    }
}

// Internal: the program alone calls it, with buffers of its own. Writes the answer to an input into `out`, and gives its length. The first n bytes of `input` are
// those of the input: all of them, or as many as `input` holds.
pub fn answer(input: &[u8], n: usize, out: &mut [u8]) -> usize
    requires { (input_room ≤ length input.now) × (n ≤ length input.now) × (answer_room ≤ length out.old) }
    ensures { InputAnswered input.now n out.old out.new result }
{
    answer_text(&input[..n], out)
}
