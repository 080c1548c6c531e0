// What wrong definitions under the promise would let pass, shut out by facts of the right ones: theory alone.
#![tactic(auto)]

ghost use Rattle.doubts.specs.Allowance.{AllowanceStands};
ghost use Rattle.doubts.specs.Causes.{CausesStand};
ghost use Rattle.doubts.specs.Changes.{ChangesStand};
ghost use Rattle.doubts.specs.Determined.{OneFigure, OneWinner, OneTandem, OneRun};
ghost use Rattle.doubts.specs.Exact.{ExactStands};
ghost use Rattle.doubts.specs.Mirrors.{MirrorsStand};
ghost use Rattle.doubts.specs.Mixed.{MixedStands};
ghost use Rattle.doubts.specs.Rivals.{RivalsExist};
ghost use Rattle.doubts.specs.Winners.{WinnersDiffer};

use worths::Worth;

// Wherever a figure can be asked for, it has rivals: unloaded, with a tandem between whole places, and with gaps in a loading.
pub fn rivals_exist()
    ensures { RivalsExist }
{}

// The exact effect of small arrangements is what is worked by hand.
pub fn exact_stands()
    ensures { ExactStands }
{}

// So is that of an arrangement with every owner, three tandems and several kinds of loading.
pub fn mixed_stands()
    ensures { MixedStands }
{}

// The rounded effect, the exact effect of what is handed back and the allowance are what is worked by hand, and the exact effect is less.
pub fn allowance_stands()
    ensures { AllowanceStands }
{}

// An arrangement is permitted exactly when its mirror is, side for side and end for end; both have the same exact effect,
// and mirrored twice it lies as it did.
pub fn mirrors_stand()
    ensures { MirrorsStand }
{}

// Every cause of refusal occurs, at the bound that is stated, and every call is taken without one.
pub fn causes_stand()
    ensures { CausesStand }
{}

// What is refused changes nothing, nor does a figure or a drawing; withdraw gives back what a reduction replaced, posted keeps the reduction.
pub fn changes_stand()
    ensures { ChangesStand }
{}

// The order of lanes matters: on a deck that leans to the right, lanes 2, 1 from the left have more effect than lanes 1, 2.
pub fn winners_differ()
    ensures { WinnersDiffer }
{}

// What is asked for leaves no choice of figure, owners or tandems; figure and drawing report the same figure.
pub fn figures_determined<W: Worth, V: Worth>()
    ensures figure { OneFigure W.Worth.kind W.Worth.made V.Worth.kind V.Worth.made }
    ensures winner { OneWinner W.Worth.kind W.Worth.made }
    ensures tandem { OneTandem }
{}

// Two runs of the same calls refuse alike and report the same figures.
pub fn runs_determined()
    ensures { OneRun }
{}
