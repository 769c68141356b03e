// cvx cvlit xcheck: an object's executable flag.
ghost use Rattle.std.specs.Prelude.{◌≡◌, true, false};
ghost use Rattle.objects.specs.Outcomes.{after, heard};
ghost use Rattle.conversion_operators.specs.Conversions.{flagged, flag_told};

use objects::fault::Fault;
use objects::object::Object;
use operators::reading::operand;
use stacks::operands::Operands;

// The top operand with the flag set so.
fn set_flag(operands: &mut Operands, executable: bool) -> Result<(), Fault>
    ensures answer { result ≡ heard (flagged executable operands.old) }
    ensures state { operands.new ≡ after (flagged executable operands.old) operands.old }
{
    let object = operand(operands, 0)?;
    operands.replace(
        1,
        Object {
            executable,
            ..object
        },
    );
    Ok(())
}

pub fn cvx(operands: &mut Operands) -> Result<(), Fault>
    ensures answer { result ≡ heard (flagged true operands.old) }
    ensures state { operands.new ≡ after (flagged true operands.old) operands.old }
{
    set_flag(operands, true)
}

pub fn cvlit(operands: &mut Operands) -> Result<(), Fault>
    ensures answer { result ≡ heard (flagged false operands.old) }
    ensures state { operands.new ≡ after (flagged false operands.old) operands.old }
{
    set_flag(operands, false)
}

pub fn xcheck(operands: &mut Operands) -> Result<(), Fault>
    ensures answer { result ≡ heard (flag_told operands.old) }
    ensures state { operands.new ≡ after (flag_told operands.old) operands.old }
{
    let object: Object = operand(operands, 0)?;
    operands.replace(1, Object::from(object.executable));
    Ok(())
}
