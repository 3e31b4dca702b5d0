//! Which of its outcomes a crash has, by a pick. The rules are stated in `docs/FORMATS.md`.

ghost use Rattle.std.specs.Prelude.{◌≡◌, ◌^◌, ◌<◌, ◌≤◌};
ghost use Rattle.mem_folder.specs.Picks.{next_state, draw_at, next_pick, stays, left_length};

use hr_base::Pick;

/// By what a state is multiplied for the next one.
const MULTIPLIER: u64 = 6_364_136_223_846_793_005;

/// What is added to that.
const INCREMENT: u64 = 1_442_695_040_888_963_407;

/// The state after this one.
fn next_state(state: u64) -> u64
    ensures { result ≡ next_state state }
{
    state.wrapping_mul(MULTIPLIER).wrapping_add(INCREMENT)
}

/// The first draw of a pick.
pub fn first_draw(pick: Pick) -> u64
    ensures { result ≡ draw_at pick 0 }
{
    match pick {
        Pick::Least | Pick::Most => 0,
        Pick::Mix(seed) => next_state(seed) >> 33,
    }
}

/// The pick with its first draw behind it.
pub fn next_pick(pick: Pick) -> Pick
    ensures { result ≡ next_pick pick }
{
    match pick {
        Pick::Least => Pick::Least,
        Pick::Most => Pick::Most,
        Pick::Mix(seed) => Pick::Mix(next_state(seed)),
    }
}

/// Whether a file is there afterwards.
pub fn stays(pick: Pick, draw: u64, named: bool) -> bool
    ensures { result ≡ stays pick draw named }
{
    match pick {
        Pick::Least => named,
        Pick::Most => true,
        Pick::Mix(_) => named || draw % 2 == 1,
    }
}

/// How many bytes of a file are there afterwards.
pub fn left_length(pick: Pick, draw: u64, front: usize, len: usize) -> usize
    requires front { front ≤ len }
    requires len { len < 2 ^ 63 }
    ensures { result ≡ left_length pick draw front len }
{
    match pick {
        Pick::Least => front,
        Pick::Most => len,
        Pick::Mix(_) => front + (draw / 2) as usize % (len - front + 1),
    }
}
