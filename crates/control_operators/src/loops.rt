// for repeat loop forall.
ghost use Rattle.std.specs.Prelude.{◌≡◌, Result};
ghost use Rattle.stacks.specs.Stacked.{Stacked};
ghost use Rattle.objects.specs.Outcomes.{after, heard};
ghost use Rattle.operators.specs.Steps.{ComputesLent, Follows};
ghost use Rattle.control_operators.specs.Frames.{looped, for_frame, repeat_frame, loop_frame, frame_over, forall_frame};

use crate::framing::make_frame;
use keepers::keeper::Keeper;
use objects::fault::Fault;
use objects::object::{Object, Span, Value};
use operators::frame::Frame;
use operators::machine::Machine;
use operators::operand::Procedure;
use operators::reading::{at_least, natural, operand};
use stacks::operands::Operands;

// The frame of a for.
fn for_frame(operands: &Operands) -> Result<Frame, Fault>
    ensures { result ≡ for_frame operands.now }
{
    at_least(operands, 4)?;
    let first = operand(operands, 3)?;
    let step = operand(operands, 2)?;
    let limit = operand(operands, 1)?;
    let Procedure(body) = operand(operands, 0)?;
    Ok(Frame::For {
        next: Some(first),
        step,
        limit,
        body,
    })
}

// The frame of a repeat.
fn repeat_frame(operands: &Operands) -> Result<Frame, Fault>
    ensures { result ≡ repeat_frame operands.now }
{
    at_least(operands, 2)?;
    let number = operand(operands, 1)?;
    let Procedure(body) = operand(operands, 0)?;
    let left = natural(number)?;
    Ok(Frame::Repeat { left, body })
}

// The frame of a loop.
fn loop_frame(operands: &Operands) -> Result<Frame, Fault>
    ensures { result ≡ loop_frame operands.now }
{
    let Procedure(body) = operand(operands, 0)?;
    Ok(Frame::Loop { body })
}

// What a forall goes over: the second operand from the top.
fn frame_over(operands: &Operands, body: Span) -> Result<Frame, Fault>
    ensures { result ≡ frame_over body operands.now }
{
    let container: Object = operand(operands, 1)?;
    match container.value {
        Value::Array(span) => Ok(Frame::ForallArray {
            left: span,
            whole: span,
            body,
        }),
        Value::String(span) => Ok(Frame::ForallString {
            left: span,
            whole: span,
            body,
        }),
        Value::Dictionary(dictionary) => Ok(Frame::ForallDictionary {
            dictionary,
            pair: 0,
            body,
        }),
        _ => Err(Fault::TypeCheck),
    }
}

// The frame of a forall.
fn forall_frame(operands: &Operands) -> Result<Frame, Fault>
    ensures { result ≡ forall_frame operands.now }
{
    at_least(operands, 2)?;
    let Procedure(body) = operand(operands, 0)?;
    frame_over(operands, body)
}

// Makes the frame that is read of the operands, for the top n of them.
#[tactic(auto, unfolding(crate::specs::Frames::looped))]
fn begin<K: Keeper, F: FnOnce(&Operands) -> Result<Frame, Fault>>(
    machine: &mut Machine<K>,
    n: usize,
    read: F,
) -> Result<(), Fault>
    requires { F.IsAlwaysCallable read }
    ensures { (frame : Stacked → Result Frame Fault) → ComputesLent (F.post read) frame → Follows (looped frame n machine.old) machine.old result machine.new }
{
    let frame = read(&machine.operands)?;
    make_frame(machine, frame, n)
}

pub fn run_for<K: Keeper>(machine: &mut Machine<K>) -> Result<(), Fault>
    ensures answer { result ≡ heard (looped for_frame 4 machine.old) }
    ensures state { machine.new ≡ after (looped for_frame 4 machine.old) machine.old }
{
    begin(machine, 4, for_frame)
}

pub fn repeat<K: Keeper>(machine: &mut Machine<K>) -> Result<(), Fault>
    ensures answer { result ≡ heard (looped repeat_frame 2 machine.old) }
    ensures state { machine.new ≡ after (looped repeat_frame 2 machine.old) machine.old }
{
    begin(machine, 2, repeat_frame)
}

pub fn run_loop<K: Keeper>(machine: &mut Machine<K>) -> Result<(), Fault>
    ensures answer { result ≡ heard (looped loop_frame 1 machine.old) }
    ensures state { machine.new ≡ after (looped loop_frame 1 machine.old) machine.old }
{
    begin(machine, 1, loop_frame)
}

pub fn forall<K: Keeper>(machine: &mut Machine<K>) -> Result<(), Fault>
    ensures answer { result ≡ heard (looped forall_frame 2 machine.old) }
    ensures state { machine.new ≡ after (looped forall_frame 2 machine.old) machine.old }
{
    begin(machine, 2, forall_frame)
}
