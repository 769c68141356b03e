// How many levels a second memory has room for.
ghost use Rattle.std.specs.Prelude.{◌≡◌, ◌+◌, ◌*◌, ◌<◌, ◌≤◌};
ghost use Rattle.keepers.specs.Kept.{level_limit};

// No keeper opens more levels than this.
const MOST_LEVELS: usize = 15;

// How many whole times the slot count goes into a second memory: at most 15, and 0 without slots.
pub fn level_limit(slots: usize, second: usize) -> usize
    ensures value { result ≡ level_limit slots second }
    ensures room { result * slots ≤ second }
    ensures bound { result ≤ 15 }
    ensures whole { 0 < slots → result < 15 → second < (result + 1) * slots }
{
    if slots == 0 {
        return 0;
    }
    MOST_LEVELS.min(second / slots)
}
