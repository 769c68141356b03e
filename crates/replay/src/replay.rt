// Plays the story on any keeper and prints it.
ghost use Rattle.std.specs.Prelude.{◌≡◌, ◌≢◌, codes};
ghost use Rattle.replay.specs.Turns.{noted, remembered};

use crate::column::Column;
use crate::moves::{BACK_BY_BOTH, BACK_STRAIGHT, Move, STORY, Save};
use crate::outing::OUTING;
use crate::scene::{MODIFIER, PHASE, Scene};
use crate::stop::Stop;
use keepers::excursion::there_and_back;
use keepers::keeper::Keeper;
use objects::fault::Fault;
use std::io;

// The slots as they were right before each save.
// Kept: a field for each save: an array indexed by level would need its index proved in range, a match does not.
#[derive(Drop)]
struct Remembered {
    outer: Scene,
    inner: Scene,
}

impl Remembered {
    fn note(&mut self, save: Save, scene: Scene)
        ensures { self.new ≡ noted save scene self.old }
    {
        match save {
            Save::Outer => self.outer = scene,
            Save::Inner => self.inner = scene,
        }
    }

    fn of(&self, save: Save) -> Scene
        ensures { result ≡ remembered save self.now }
    {
        match save {
            Save::Outer => self.outer,
            Save::Inner => self.inner,
        }
    }
}

fn play<K: Keeper>(keeper: &mut K, step: Move) -> Result<(), Fault> {
    match step {
        Move::Phase(phase) => keeper.put_slot(PHASE, phase.into()),
        Move::Modifier(number) => keeper.put_slot(MODIFIER, number.into()),
        Move::Open(_) => keeper.open_level(),
        Move::Back(save) => keeper.back_to(save.level()),
    }
}

fn print_move(rt: &HostRuntime, step: Move) -> io::Result<()> {
    match step {
        Move::Phase(phase) => print!(rt; "  phase     {phase:<10}"),
        Move::Modifier(number) => print!(rt; "  modifier  {number:<10}"),
        Move::Open(save) => print!(rt; "  save      {save:<10}"),
        Move::Back(save) => print!(rt; "  back to   {save:<10}"),
    }
}

// Both columns by one print, so that they go out by one write.
fn print_scene(rt: &HostRuntime, scene: Scene) -> io::Result<()> {
    let phase = Column(scene.phase());
    let modifier = Column(scene.modifier());
    print!(rt; "  {phase:<10} {modifier:>8}")
}

fn verdict(found: Scene, saved: Scene) -> &'static str
    ensures same { found ≡ saved → result.now ≡ codes "as saved" }
    ensures different { found ≢ saved → result.now ≡ codes "DIFFERENT" }
{
    if found == saved {
        "as saved"
    } else {
        "DIFFERENT"
    }
}

fn tell<K: Keeper>(
    rt: &HostRuntime,
    keeper: &mut K,
    remembered: &mut Remembered,
    moves: &[Move],
) -> Result<(), Stop> {
    for step in moves {
        let before = Scene::read(keeper)?;
        play(keeper, *step)?;
        let after = Scene::read(keeper)?;
        print_move(rt, *step)?;
        print_scene(rt, after)?;
        match *step {
            Move::Open(save) => remembered.note(save, before),
            Move::Back(save) => print!(rt; "   {}", verdict(after, remembered.of(save)))?,
            _ => {}
        }
        println!(rt; "")?;
    }
    Ok(())
}

fn tell_with<K: Keeper>(rt: &HostRuntime, keeper: &mut K, way_back: &[Move]) -> Result<(), Stop> {
    let mut remembered = Remembered {
        outer: Scene::BLANK,
        inner: Scene::BLANK,
    };
    println!(rt; "  move                  phase      modifier")?;
    tell(rt, keeper, &mut remembered, &STORY)?;
    tell(rt, keeper, &mut remembered, way_back)?;
    println!(rt; "")?;
    Ok(())
}

// Seven moves made by one call, which opens a level before them and goes back to it after them.
fn tell_outing<K: Keeper>(rt: &HostRuntime, keeper: &mut K) -> Result<(), Stop> {
    let before = Scene::read(keeper)?;
    there_and_back(keeper, &OUTING)?;
    let after = Scene::read(keeper)?;
    println!(rt; "  move                  phase      modifier")?;
    print!(rt; "  before them         ")?;
    print_scene(rt, before)?;
    println!(rt; "")?;
    print!(rt; "  after the way back  ")?;
    print_scene(rt, after)?;
    println!(rt; "   {}", verdict(after, before))?;
    println!(rt; "")?;
    Ok(())
}

// Tells the story twice, back by both saves and straight back to the outer one; then makes moves by one call.
pub fn replay<K: Keeper>(rt: &HostRuntime, name: &str, keeper: &mut K) -> Result<(), Stop> {
    println!(rt; "{name}: back to the inner save, then to the outer one")?;
    tell_with(rt, keeper, &BACK_BY_BOTH)?;
    println!(rt; "{name}: straight back to the outer save")?;
    tell_with(rt, keeper, &BACK_STRAIGHT)?;
    println!(rt; "{name}: seven moves by one call, and back")?;
    tell_outing(rt, keeper)
}
