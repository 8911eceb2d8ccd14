// Refusals 1 to 4 and 14, from the side counts and the lengths of the other tables, and 16, from the tension.
#![tactic(auto)]

ghost use Rattle.std.specs.Prelude.{◌≤◌, ◌/◌, ◌*◌, ◌≡◌, ltb};
ghost use Rattle.bounds.specs.Bounds.{max_product};
ghost use Rattle.polygons.specs.Polygons.{bad_count, bad_sides};
ghost use Rattle.verdict.specs.Verdict.{shorter, corners_verdict, tables_verdict, size_verdict, room_verdict, limits_verdict, or_else, refused_if};
ghost use Rattle.verdict.specs.Call as call;
ghost use Rattle.reasons.specs.Reasons.{number, reason_of};
ghost use Rattle.limits.specs.Answer.{room_in, lengths_in, FinalFaces};

use reasons::Reason;

// The lengths of the tables of a call but the side counts.
#[derive(Clone, Copy)]
pub struct Lengths {
    pub coordinates: usize,
    pub corners: usize,
    pub marks: usize,
    pub room: Room,
}

// The lengths of the output tables and the work table, and whether letters are asked for.
#[derive(Clone, Copy)]
pub struct Room {
    pub vertices: usize,
    pub faces: usize,
    pub marks: usize,
    pub with_letters: bool,
    pub letters: usize,
    pub work: usize,
}

// The number of four-sided faces where refining begins: with side counts each side of a face gives one.
pub fn quadrilaterals(sides: &[u8], corners: usize) -> usize
    ensures { result ≡ call.quadrilaterals sides.now corners }
{
    if sides.is_empty() {
        corners / 4
    } else {
        corners
    }
}

// The number of refined faces, where rounds and faces are within their limits; else 0.
pub fn final_faces(rounds: u32, faces: usize) -> usize
    ensures { FinalFaces rounds faces result }
{
    if rounds > bounds::MAX_ROUNDS || faces > bounds::MAX_FACES {
        0
    } else {
        faces * 4usize.pow(rounds)
    }
}

// The least lengths for g refined faces, for a call that asks for letters.
pub fn needed(g: usize) -> Room
    requires { g ≤ max_product }
    ensures { room_in result ≡ call.needed g }
{
    Room {
        vertices: 12 * g,
        faces: 4 * g,
        marks: 4 * g,
        with_letters: true,
        letters: 4 * g,
        work: 16 * g,
    }
}

// The refusal for a reason where a test holds.
fn refuse_if(holds: bool, reason: Reason) -> Result<(), Reason>
    ensures { refused_if (number reason) holds ≡ reason_of result }
{
    if holds { Err(reason) } else { Ok(()) }
}

// Whether c is outside 3 to 8.
#[tactic(auto, unfolding(polygons::specs::Polygons::bad_count))]
fn bad_count(c: usize) -> bool
    ensures { result ≡ bad_count c }
{
    c < 3 || c > 8
}

// Whether a side count is outside 3 to 8, or their sum is not the number of corners. It stops as soon as the sum passes that number.
fn bad_sides(sides: &[u8], corners: usize) -> bool
    ensures { result ≡ bad_sides sides.now corners }
{
    let mut left = corners;
    for side in sides {
        let c = *side as usize;
        if bad_count(c) || left < c {
            return true;
        }
        left -= c;
    }
    left != 0
}

// Refusal 14 of side counts; without them refusal 2 of the face table.
fn test_corners(sides: &[u8], corners: usize) -> Result<(), Reason>
    ensures { corners_verdict sides.now corners ≡ reason_of result }
{
    if sides.is_empty() {
        refuse_if(corners % 4 != 0, Reason::InvalidLengths)
    } else {
        refuse_if(bad_sides(sides, corners), Reason::InvalidSideCounts)
    }
}

// Refusal 2 or 14.
#[tactic(auto, unfolding(verdict::specs::Verdict::tables_verdict))]
fn test_tables(sides: &[u8], n: Lengths) -> Result<(), Reason>
    ensures { tables_verdict n.coordinates n.corners sides.now n.marks ≡ reason_of result }
{
    refuse_if(n.coordinates % 3 != 0, Reason::InvalidLengths)?;
    test_corners(sides, n.corners)?;
    refuse_if(n.marks != n.coordinates / 3, Reason::InvalidLengths)
}

// Refusal 3 for v vertices, f faces and g refined faces.
#[tactic(auto, unfolding(verdict::specs::Verdict::size_verdict))]
fn test_size(v: usize, f: usize, g: usize) -> Result<(), Reason>
    ensures { size_verdict v f g ≡ reason_of result }
{
    refuse_if(v > bounds::MAX_VERTICES, Reason::NetTooLarge)?;
    refuse_if(f > bounds::MAX_FACES, Reason::NetTooLarge)?;
    refuse_if(g > bounds::MAX_REFINED_FACES, Reason::NetTooLarge)
}

// Whether a table is shorter than the least, the letter table where letters are asked for.
fn shorter(room: Room, least: Room) -> bool
    ensures { result ≡ shorter (room_in room) (room_in least) }
{
    room.vertices < least.vertices
        || room.faces < least.faces
        || room.marks < least.marks
        || (room.with_letters && room.letters < least.letters)
        || room.work < least.work
}

// Refusal 4 for g refined faces.
#[tactic(auto, unfolding(verdict::specs::Verdict::room_verdict))]
fn test_room(g: usize, room: Room) -> Result<(), Reason>
    requires { g ≤ max_product }
    ensures { room_verdict g (room_in room) ≡ reason_of result }
{
    refuse_if(shorter(room, needed(g)), Reason::TableTooShort)
}

// The first of refusals 1 to 4 and 14 that holds.
#[tactic(auto, unfolding(verdict::specs::Verdict::limits_verdict))]
pub fn limits(rounds: u32, sides: &[u8], n: Lengths) -> Result<(), Reason>
    ensures { limits_verdict rounds sides.now (lengths_in n) ≡ reason_of result }
{
    refuse_if(rounds > bounds::MAX_ROUNDS, Reason::TooManyRounds)?;
    test_tables(sides, n)?;
    let f = quadrilaterals(sides, n.corners);
    let g = final_faces(rounds, f);
    test_size(n.coordinates / 3, f, g)?;
    test_room(g, n.room)
}

// The first of refusals 1 to 4, 14 and 16 that holds.
pub fn call_fault(rounds: u32, sides: &[u8], n: Lengths, tension: u32) -> Result<(), Reason>
    ensures { or_else (limits_verdict rounds sides.now (lengths_in n)) (refused_if 16 (ltb 4 tension)) ≡ reason_of result }
{
    limits(rounds, sides, n)?;
    refuse_if(tension > 4, Reason::TensionOutOfRange)
}
