// How control operators make frames.
ghost use Rattle.std.specs.Prelude.{◌≡◌};
ghost use Rattle.objects.specs.Outcomes.{after, heard};
ghost use Rattle.control_operators.specs.Frames.{framed_for, started_for};

use keepers::keeper::Keeper;
use objects::fault::Fault;
use objects::object::Span;
use operators::frame::Frame;
use operators::machine::Machine;

// Makes a frame for so many operands, which go.
pub fn make_frame<K: Keeper>(
    machine: &mut Machine<K>,
    frame: Frame,
    operands: usize,
) -> Result<(), Fault>
    ensures answer { result ≡ heard (framed_for frame operands machine.old) }
    ensures state { machine.new ≡ after (framed_for frame operands machine.old) machine.old }
{
    machine
        .frames
        .push(frame)
        .map_err(|_| Fault::ExecStackOverflow)?;
    machine.operands.discard(operands);
    Ok(())
}

// Makes a procedure's frame for so many operands, which go; an empty procedure makes none.
pub fn start<K: Keeper>(
    machine: &mut Machine<K>,
    procedure: Span,
    operands: usize,
) -> Result<(), Fault>
    ensures answer { result ≡ heard (started_for procedure operands machine.old) }
    ensures state { machine.new ≡ after (started_for procedure operands machine.old) machine.old }
{
    if procedure.len == 0 {
        machine.operands.discard(operands);
        return Ok(());
    }
    make_frame(machine, Frame::Procedure(procedure), operands)
}
