// What the rules come to: each contract is a law (specs/Laws.antt, specs/Promise.antt), and the functions do nothing.
ghost use Rattle.codes.specs.Laws.{CodeOfPegs, PegsOfCode, WithinPegs, ItselfRight, NeverOneNear, TurnedKeeps};
ghost use Rattle.codes.specs.Promise.{EitherWay, AllRight};

// The code of a code's pegs is that code.
#[tactic(auto, using(crate::proofs::Digits::code_of_pegs))]
pub fn code_of_pegs()
    ensures { CodeOfPegs }
{}

// A row of pegs that has a code is the row of that code's pegs.
pub fn pegs_of_code()
    ensures { PegsOfCode }
{}

// What is told of two codes is the same either way round.
#[tactic(auto, using(crate::proofs::Told::either_way))]
pub fn either_way()
    ensures { EitherWay }
{}

// All right is told of the code itself only.
#[tactic(auto, using(crate::proofs::Told::all_right))]
pub fn all_right()
    ensures { AllRight }
{}

// A code is told all right of itself.
#[tactic(auto, using(crate::proofs::Told::itself_right))]
pub fn itself_right()
    ensures { ItselfRight }
{}

// Right and near together are at most the pegs.
#[tactic(auto, using(crate::proofs::Told::within_pegs))]
pub fn within_pegs()
    ensures { WithinPegs }
{}

// All pegs but one right, and that one near, is never told.
#[tactic(auto, using(crate::proofs::Told::never_one_near))]
pub fn never_one_near()
    ensures { NeverOneNear }
{}

// A call that is turned away changes nothing.
pub fn turned_keeps()
    ensures { TurnedKeeps }
{}
