// exec if ifelse stopped.
ghost use Rattle.std.specs.Prelude.{◌≡◌};
ghost use Rattle.objects.specs.Outcomes.{after, heard};
ghost use Rattle.control_operators.specs.Frames.{executed, conditional, chosen, alternative, guarded};

use crate::framing::start;
use keepers::keeper::Keeper;
use objects::fault::Fault;
use objects::object::Span;
use operators::frame::Frame;
use operators::machine::{MOST_FRAMES, Machine};
use operators::operand::Procedure;
use operators::reading::{at_least, operand};
use stacks::operands::Operands;

pub fn exec<K: Keeper>(machine: &mut Machine<K>) -> Result<(), Fault>
    ensures answer { result ≡ heard (executed machine.old) }
    ensures state { machine.new ≡ after (executed machine.old) machine.old }
{
    let Procedure(procedure) = operand(&machine.operands, 0)?;
    start(machine, procedure, 1)
}

pub fn run_if<K: Keeper>(machine: &mut Machine<K>) -> Result<(), Fault>
    ensures answer { result ≡ heard (conditional machine.old) }
    ensures state { machine.new ≡ after (conditional machine.old) machine.old }
{
    at_least(&machine.operands, 2)?;
    let holds = operand(&machine.operands, 1)?;
    let Procedure(procedure) = operand(&machine.operands, 0)?;
    if holds {
        return start(machine, procedure, 2);
    }
    machine.operands.discard(2);
    Ok(())
}

// The procedure that an ifelse runs.
fn choose(operands: &Operands) -> Result<Span, Fault>
    ensures { result ≡ chosen operands.now }
{
    at_least(operands, 3)?;
    let holds = operand(operands, 2)?;
    let Procedure(first) = operand(operands, 1)?;
    let Procedure(second) = operand(operands, 0)?;
    Ok(if holds { first } else { second })
}

pub fn run_ifelse<K: Keeper>(machine: &mut Machine<K>) -> Result<(), Fault>
    ensures answer { result ≡ heard (alternative machine.old) }
    ensures state { machine.new ≡ after (alternative machine.old) machine.old }
{
    let procedure = choose(&machine.operands)?;
    start(machine, procedure, 3)
}

pub fn stopped<K: Keeper>(machine: &mut Machine<K>) -> Result<(), Fault>
    ensures answer { result ≡ heard (guarded machine.old) }
    ensures state { machine.new ≡ after (guarded machine.old) machine.old }
{
    let Procedure(procedure) = operand(&machine.operands, 0)?;
    let frames = if procedure.len > 0 { 2 } else { 1 };
    if machine.frames.depth() + frames > MOST_FRAMES {
        return Err(Fault::ExecStackOverflow);
    }
    let _ = machine.frames.push(Frame::Stopped);
    if procedure.len > 0 {
        let _ = machine.frames.push(Frame::Procedure(procedure));
    }
    machine.operands.open_stopped();
    Ok(())
}
