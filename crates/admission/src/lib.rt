// Admitting the net of a call, or refusing it; and the check, which only says which.
#![tactic(auto)]

ghost use Rattle.std.specs.Prelude.{◌≡◌, length};
ghost use Rattle.nets.specs.Drawn.{drawn};
ghost use Rattle.verdict.specs.Call.{call, alone_room, alone};
ghost use Rattle.reasons.specs.Reasons.{verdict_of};
ghost use Rattle.limits.specs.Answer.{room_in};
ghost use Rattle.admission.specs.Answer.{checked_as, checked};
ghost use Rattle.admission.specs.Admission.{Admits};

use limits::{Lengths, Room};
use nets::Net;
use reasons::Refusal;

// Admits the net of a call, given the lengths of its output tables, that of the letter table too where letters are asked for, and leaves its mates at the front of
// the work table, and its shape where there are side counts; or refuses it. The answer is the number of refined faces.
// The time is linear in the tables.
pub fn admit(
    rounds: u32,
    net: Net,
    tension: u32,
    room: Room,
    work: &mut [u32],
) -> Result<usize, Refusal>
    requires { room.work ≡ length work.old }
    ensures { Admits (call rounds (drawn net.entry) tension (room_in room)) work.old result work.new }
{
    let lengths = Lengths {
        coordinates: net.vertices.len(),
        corners: net.faces.len(),
        marks: net.marks.len(),
        room,
    };
    limits::call_fault(rounds, net.sides, lengths, tension)?;
    let quadrilaterals = limits::quadrilaterals(net.sides, net.faces.len());
    let last = limits::final_faces(rounds, quadrilaterals);
    sidetable::build_shape(net.sides, net.faces.len(), &mut *work);
    match examination::examine_net(net, &mut *work) {
        Ok(()) => Ok(last),
        Err(refusal) => {
            tables::clear(&mut *work, 16 * last);
            Err(refusal)
        }
    }
}

// The verdict on a call but for 15, given the lengths of its output tables. The time is that of admitting it, and of clearing the work table.
pub fn check(
    rounds: u32,
    net: Net,
    tension: u32,
    room: Room,
    work: &mut [u32],
) -> Result<(), Refusal>
    requires { room.work ≡ length work.old }
    ensures { checked_as (verdict_of result) work.new ≡ checked (call rounds (drawn net.entry) tension (room_in room)) work.old }
{
    let g = admit(rounds, net, tension, room, &mut *work)?;
    tables::clear(&mut *work, 16 * g);
    Ok(())
}

// Outputs that serve every net at zero rounds, without letters.
fn alone_room(work: usize) -> Room
    ensures { room_in result ≡ alone_room work }
{
    Room {
        vertices: 12 * bounds::MAX_FACES,
        faces: 4 * bounds::MAX_FACES,
        marks: 4 * bounds::MAX_FACES,
        with_letters: false,
        letters: 0,
        work,
    }
}

// Admits a net by itself, as `admit` does for zero rounds and outputs that are long enough.
pub fn admit_alone(net: Net, tension: u32, work: &mut [u32]) -> Result<usize, Refusal>
    ensures { Admits (alone (drawn net.entry) tension (length work.old)) work.old result work.new }
{
    let room = alone_room(work.len());
    admit(0, net, tension, room, &mut *work)
}

// The verdict on a net by itself.
pub fn check_alone(net: Net, tension: u32, work: &mut [u32]) -> Result<(), Refusal>
    ensures { checked_as (verdict_of result) work.new ≡ checked (alone (drawn net.entry) tension (length work.old)) work.old }
{
    let room = alone_room(work.len());
    check(0, net, tension, room, &mut *work)
}
