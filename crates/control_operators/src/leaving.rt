// exit stop.
ghost use Rattle.std.specs.Prelude.{◌≡◌, ◌≤◌, ◌<◌, length, position, reverse, IfSome, Err};
ghost use Rattle.objects.specs.Outcomes.{after, heard};
ghost use Rattle.objects.specs.declared.fault.Fault.TheVariants.{UncaughtStop};
ghost use Rattle.control_operators.specs.Frames.{ends_exit, down_to_loop, left_loop};

use keepers::keeper::Keeper;
use objects::fault::Fault;
use operators::frame::Frame;
use operators::machine::{Frames, Machine};

// Whether an exit ends at a frame: any but a procedure's.
fn ends_exit(frame: &Frame) -> bool
    ensures { result ≡ ends_exit frame.now }
{
    !matches!(frame, Frame::Procedure(_))
}

// How many procedures' frames lie above the topmost frame of another kind, in frames of which the lowest comes first.
fn procedures_on_top(frames: &[Frame]) -> Option<usize>
    ensures value { result ≡ position ends_exit (reverse frames.now) }
    ensures within { IfSome result (λ n. n < length frames.now) }
{
    frames.iter().rev().position(|frame| ends_exit(frame))
}

// How many frames an exit takes down: to the nearest loop, and with it. None where a stopped frame comes first.
fn frames_to_leave(frames: &Frames) -> Option<usize>
    ensures value { result ≡ down_to_loop 0 frames.now }
    ensures within { IfSome result (λ n. n ≤ length frames.now) }
{
    let above = procedures_on_top(frames.lowest_first())?;
    match frames.peek(above)? {
        Frame::Stopped => None,
        _ => Some(above + 1),
    }
}

pub fn exit<K: Keeper>(machine: &mut Machine<K>) -> Result<(), Fault>
    ensures answer { result ≡ heard (left_loop machine.old) }
    ensures state { machine.new ≡ after (left_loop machine.old) machine.old }
{
    let count = frames_to_leave(&machine.frames).ok_or(Fault::InvalidExit)?;
    let depth = machine.frames.depth();
    machine.frames.truncate(depth - count);
    Ok(())
}

// Always refused: the refusal takes the frames down to the nearest stopped frame.
pub fn stop<K: Keeper>(machine: &mut Machine<K>) -> Result<(), Fault>
    ensures answer { result ≡ Err UncaughtStop }
    ensures state { machine.new ≡ machine.old }
{
    let _ = machine;
    Err(Fault::UncaughtStop)
}
