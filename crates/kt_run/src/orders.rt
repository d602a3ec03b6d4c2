//! In which order the steps of a run are made.

ghost use Rattle.std.specs.Prelude.{◌≡◌, ◌<◌, ℕ, Some, true, false, IfSome, IfNone};
ghost use Rattle.kt_core.specs.Shown.{Mirrors};
ghost use Rattle.kt_core.specs.Worlds.{can_make};
ghost use Rattle.kt_promises.specs.Progress.{Progress};
ghost use Rattle.kt_run.specs.Orders.{draw_below, generator_next, generator_of, step_in_order};

use kt_core::World;
use kt_plan::Step;
use rand_core::SeedableRng;
use rand_core::utils::NextWord;
use rand_xoshiro::Xoshiro256PlusPlus;

/// By how many words of a generator a number is drawn at most.
const MOST_WORDS: u32 = 64;

/// In which order the steps of a run are made, once those that are given have been made.
#[derive(Clone, Copy)]
pub enum Order {
    /// Default steps.
    Default,
    /// Each step is drawn from all that are enabled, as the generator xoshiro256++ of this seed gives it.
    Drawn(u64),
}

impl Order {
    /// The generator that draws the steps, where one does.
    pub(crate) fn generator(self) -> Option<Xoshiro256PlusPlus>
        ensures { result ≡ generator_of self }
    {
        match self {
            Order::Default => None,
            Order::Drawn(seed) => Some(Xoshiro256PlusPlus::seed_from_u64(seed)),
        }
    }
}

/// The step that comes next in a world, if one is enabled.
#[inline(always)]
pub(crate) fn step_in_order(
    world: &World,
    generator: &mut Option<Xoshiro256PlusPlus>,
) -> Option<Step>
    ensures enabled { IfSome result (λ step. can_make world.now step ≡ true) }
    ensures none { IfNone result ((step : Step) → can_make world.now step ≡ false) }
    ensures step { (first : ℕ) (v : Progress) → Mirrors world.now.agenda world.now.system first v →
        result ≡ step_in_order world.now.agenda.plan v generator.old }
    ensures generator { (first : ℕ) (v : Progress) → Mirrors world.now.agenda world.now.system first v →
        IfSome result (λ _. generator.new ≡ generator_next world.now.agenda.plan v generator.old) }
{
    match generator {
        Some(source) => drawn_step(world, source),
        None => world.default_step(),
    }
}

// A step that is drawn from all that are enabled, if any are: they are counted, and the one at the place drawn is found.
#[inline(never)]
fn drawn_step(world: &World, generator: &mut Xoshiro256PlusPlus) -> Option<Step>
    ensures enabled { IfSome result (λ step. can_make world.now step ≡ true) }
    ensures none { IfNone result ((step : Step) → can_make world.now step ≡ false) }
    ensures step { (first : ℕ) (v : Progress) → Mirrors world.now.agenda world.now.system first v →
        result ≡ step_in_order world.now.agenda.plan v (Some generator.old) }
    ensures generator { (first : ℕ) (v : Progress) → Mirrors world.now.agenda world.now.system first v →
        IfSome result (λ _. Some generator.new ≡ generator_next world.now.agenda.plan v (Some generator.old)) }
{
    let movers = world.movers();
    let count = world.count_enabled(&movers);
    if count == 0 {
        return None;
    }
    let place = number_below(generator, count as u64);
    world.enabled_at(&movers, place as usize)
}

// A number below a count, each as likely as another: a word counts as it is below the greatest multiple of the count.
// That none of 64 words is comes about once in 2^3,000 times.
fn number_below(generator: &mut Xoshiro256PlusPlus, count: u64) -> u64
    requires { 0 < count }
    ensures drawn { (result, generator.new) ≡ draw_below count generator.old }
    ensures below { result < count }
{
    let even = u64::MAX - u64::MAX % count;
    for _number in 0..MOST_WORDS {
        let word = generator.next_word();
        if word < even {
            return word % count;
        }
    }
    0
}
