// What a rating promises, in the subject's words, and what follows from it: theory alone.
#![tactic(auto)]

ghost use Rattle.statement.specs.Facts.{Bounded, Shown, Near, OwnersTell, WinnerOnce};
ghost use Rattle.statement.specs.Permits.{EveryOrder, EveryPlace, NoTandem, EveryLoading};
ghost use Rattle.statement.specs.Parts.{LanesCut, PartsLaid, ChosenWins, WinnerChosen};
ghost use Rattle.statement.specs.Turns.{SidesPermitted, EndsPermitted, SidesKeep, EndsKeep};
ghost use Rattle.statement.specs.Figures.{ListsCount, ListsLow, RatedServes};
ghost use Rattle.statement.specs.Runs.{MetServes};

use worths::Worth;

// No permitted arrangement beats the rounded effect of its lanes; what is handed back is permitted and comes near it,
// and owners tell it.
pub fn effects_stand()
    ensures bounded { Bounded }
    ensures shown { Shown }
    ensures near { Near }
    ensures owners { OwnersTell }
{}

// Lanes in any order and parts from the left are the same thing.
pub fn lanes_stand()
    ensures cut { LanesCut }
    ensures laid { PartsLaid }
{}

// By any kind of worth, the parts that a placement chooses are the winner, whose owners are unique.
pub fn winners_stand<W: Worth>()
    ensures wins { ChosenWins W.Worth.kind W.Worth.made }
    ensures chosen { WinnerChosen W.Worth.kind W.Worth.made }
    ensures once { WinnerOnce W.Worth.kind W.Worth.made }
{}

// By any kind of worth, the best placement over the lists gives the figure that is promised.
pub fn figures_stand<W: Worth>()
    ensures lists { ListsCount }
    ensures low { ListsLow }
    ensures figure { RatedServes W.Worth.kind W.Worth.made }
{}

// Turning the surface keeps what is permitted, and the rounded effect of lanes.
pub fn turning_stands()
    ensures sides_permitted { SidesPermitted }
    ensures ends_permitted { EndsPermitted }
    ensures sides { SidesKeep }
    ensures ends { EndsKeep }
{}

// A run that is met keeps the whole promise.
pub fn runs_stand()
    ensures { MetServes }
{}

// What is permitted is not too narrow.
pub fn permits_stand()
    ensures orders { EveryOrder }
    ensures places { EveryPlace }
    ensures empty { NoTandem }
    ensures loadings { EveryLoading }
{}
