// Theorems about every checked rule, each on the contract of a function that does nothing else.
ghost use Rattle.calculus.specs.Plays.{PlaysHold};
ghost use Rattle.calculus.specs.Theorems.{CheckedRules, Ending, FilterMatches, FullAtState, FullTogether, HeldReached, Listed, MatchingAgrees, OneStep, Opened, ReachedClosed, RunsFollow, Settling, StatesRead};

// Every checked rule has what the theorems below rest on: they assume nothing more of it.
pub fn checked_rules_are_well_formed()
    ensures { CheckedRules }
{}

// Matching that binds variables agrees with matching under chosen numbers.
pub fn matching_agrees()
    ensures binding { MatchingAgrees }
    ensures filter { FilterMatches }
{}

// States and the reading agree, event by event, at the end, and where a variable is settled.
pub fn steps_agree_with_the_reading()
    ensures step { OneStep }
    ensures ending { Ending }
    ensures settling { Settling }
{}

// What is reached from the start depends on no numbers from outside.
pub fn reached_states_are_closed()
    ensures { ReachedClosed }
{}

// A run's counts and its verdict are what the reading says of the events shown, and it holds the states that they lead to.
pub fn runs_follow_the_reading()
    ensures run { RunsFollow }
    ensures held { HeldReached }
    ensures reached { StatesRead }
{}

// The executable outcomes are the steps, and the executable test for full is the overflow of a visited part.
pub fn outcomes_are_the_steps()
    ensures listed { Listed }
    ensures opened { Opened }
    ensures full { FullAtState }
    ensures refused { FullTogether }
{}

// The worked plays come out as their table says.
pub fn plays_come_out()
    ensures { PlaysHold }
{}
