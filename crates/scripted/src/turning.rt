// The surface of a script, turned as the script says.
ghost use Rattle.script.specs.Turns.{negated, ends_turned, turned_shape};
ghost use Rattle.scripted.specs.Left.{text_left, duty_left_by};
ghost use Rattle.scripted.specs.Runs.{RanSo};

use crate::answers::make_calls;
use crate::ran::Ran;
use script::tail::Tail;
use std::alloc::Global;
use surface::Surface;
use surface::ends::EndForEnd;
use surface::opposite::Opposite;
use surface::sides::SideForSide;

// Three steps beside one another, since each leaves a surface of another type for the next; a struct of what they pass on would be made anew in each.

// With every ordinate negated, if the script says so.
fn run_opposite<S: Surface + Drop>(heap: Global, surface: S, tail: &Tail) -> Ran
    ensures { RanSo (negated tail.now.turns (S.Surface.shape surface)) tail.now.opening.number tail.now.opening.kerbs tail.now.calls.items (text_left result) (duty_left_by result) }
{
    if tail.turns.opposite {
        make_calls(heap, Opposite::new(surface), tail)
    } else {
        make_calls(heap, surface, tail)
    }
}

// Turned end for end, if the script says so.
fn run_ends<S: Surface + Drop>(heap: Global, surface: S, tail: &Tail) -> Ran
    ensures { RanSo (ends_turned tail.now.turns (S.Surface.shape surface)) tail.now.opening.number tail.now.opening.kerbs tail.now.calls.items (text_left result) (duty_left_by result) }
{
    if tail.turns.ends {
        run_opposite(heap, EndForEnd::new(surface), tail)
    } else {
        run_opposite(heap, surface, tail)
    }
}

// Runs the script over its surface, turned as it says.
pub fn run_turned<S: Surface + Drop>(heap: Global, surface: S, tail: &Tail) -> Ran
    ensures { RanSo (turned_shape tail.now.turns (S.Surface.shape surface)) tail.now.opening.number tail.now.opening.kerbs tail.now.calls.items (text_left result) (duty_left_by result) }
{
    if tail.turns.sides {
        run_ends(heap, SideForSide::new(surface), tail)
    } else {
        run_ends(heap, surface, tail)
    }
}
