// The theorems of the logic, each in the contract of a function.
ghost use Rattle.logic.specs.Conditions.{Sound, SoundNewest};
ghost use Rattle.logic.specs.Equations.{SinceEquation, SinceStart, Stable, UntilEquation};
ghost use Rattle.logic.specs.Examples.{NotBySample, NotEarly, NotSingly, WorkedRuns};
ghost use Rattle.logic.specs.Flat.{FewHeld};
ghost use Rattle.logic.specs.Histories.{HistoriesKept, LinesCounted, TrayEnough};
ghost use Rattle.logic.specs.Names.{LinesStay, NamesApart};
ghost use Rattle.logic.specs.Numbers.{KnownByNumbers};
ghost use Rattle.logic.specs.Reach.{Settles};
ghost use Rattle.logic.specs.Runs.{HeldYoung, JoinsHeld, RunFew, RunLaw};
ghost use Rattle.logic.specs.Tables.{FormulasBuilt};
ghost use Rattle.logic.specs.Values.{PlainTells, SinceStarts, SinceSteps};
ghost use Rattle.logic.specs.Verdicts.{Continues, SoundFalse, SoundJoined, SoundTrue};
ghost use Rattle.logic.specs.Waits.{CarriedTable, ComponentStep, LocalComponent, LocalTable, NewestTable, SoundTable};
ghost use Rattle.logic.specs.Wrong.{WrongWatchesFail};

use truth::Truth;

// The plain value of a formula without future operators says whether it is true.
pub fn past_values_tell_truth()
    ensures { PlainTells }
{}

// In every kind of truth, by its laws alone, the published form of a since at a shift goes from point to point by one step.
pub fn since_is_its_witness_form<T: Truth>()
    ensures starts { SinceStarts T.Truth.ops }
    ensures steps { SinceSteps T.Truth.ops }
{}

// Each record's formula is built from those of its arguments.
pub fn formulas_are_built()
    ensures { FormulasBuilt }
{}

// Truth is stable, and since and until at a shift obey their one-step equations.
pub fn logic_is_lawful()
    ensures stable { Stable }
    ensures start { SinceStart }
    ensures since { SinceEquation }
    ensures until { UntilEquation }
{}

// The condition of each accepted point says whether the formula is true there, and the same of a table's rule over numbered waits.
pub fn conditions_are_sound()
    ensures newest { SoundNewest }
    ensures points { Sound }
    ensures table { SoundTable }
{}

// The conditions of a table go record by record and from point to point, and each looks at no more waits than it needs.
pub fn conditions_are_carried()
    ensures records { ComponentStep }
    ensures newest { NewestTable }
    ensures carried { CarriedTable }
    ensures beneath { LocalComponent }
    ensures within { LocalTable }
{}

// What constant and equal conditions say holds under every endless continuation, of which there is always one.
pub fn verdicts_are_sound()
    ensures always { SoundTrue }
    ensures never { SoundFalse }
    ensures joined { SoundJoined }
    ensures continues { Continues }
{}

// A point older than the reach has a constant condition, points of a flat rule whose conditions are open and different are few, and
// a condition is known by its values at the settings that numbers stand for.
pub fn conditions_are_few()
    ensures settles { Settles }
    ensures few { FewHeld }
    ensures numbers { KnownByNumbers }
{}

// Over every run the verdicts are so, each accepted point is once settled, joined or held, and what is held is young and few; points are
// told apart by their names, which stay.
pub fn runs_are_lawful()
    ensures law { RunLaw }
    ensures joins { JoinsHeld }
    ensures young { HeldYoung }
    ensures few { RunFew }
    ensures names { NamesApart }
    ensures lines { LinesStay }
{}

// Worked runs come to what is said of them, and three misreadings give something else.
pub fn worked_runs_follow()
    ensures runs { WorkedRuns }
    ensures expiry { NotEarly }
    ensures samples { NotBySample }
    ensures together { NotSingly }
{}

// Whatever is drawn from a newly fitted watch, with trays of any length, its lines are so, its counts are right, and each accepted point is
// once settled, joined or held. A draw's lines have room in its tray, and it answers how many they are.
pub fn histories_are_lawful()
    ensures promise { HistoriesKept }
    ensures room { TrayEnough }
    ensures count { LinesCounted }
{}

// No promise is kept by a watch that calls everything true, joins everything to the first point, holds everything, judges only the first
// sample, or invents counts; and the defined draw does not refuse everything, say ended early, or count the slots early.
pub fn wrong_watches_fail()
    ensures { WrongWatchesFail }
{}
