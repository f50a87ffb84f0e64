// What numbers and tables come to: each contract is a law of specs/Laws.antt, and the functions do nothing.
ghost use Rattle.table.specs.Laws.{NumberStands, StandsAtNumber, NumbersDiffer, HowManyAnswers, NumbersCount, RightNumbered};
ghost use Rattle.table.specs.Laws.{GameTable, RowsTell, EntriesTell, EntriesPart, LookUpTells, Diagonal};

// Feedback that a game allows stands at its number.
#[tactic(auto, using(crate::proofs::Numbers::number_stands))]
pub fn number_stands()
    ensures { NumberStands }
{}

// What stands at a number has that number, and is feedback that the game allows.
pub fn stands_at_number()
    ensures { StandsAtNumber }
{}

// No two ways of being told share a number.
#[tactic(auto, using(crate::proofs::Numbers::numbers_differ))]
pub fn numbers_differ()
    ensures { NumbersDiffer }
{}

// How many ways of being told there are, and that all right is the last.
#[tactic(auto, using(crate::proofs::Numbers::how_many_answers))]
pub fn how_many_answers()
    ensures { HowManyAnswers }
{}

// In the order of the rule book the numbers are 0, 1, 2 and so on.
#[tactic(auto, using(crate::proofs::Numbers::numbers_count))]
pub fn numbers_count()
    ensures { NumbersCount }
{}

// Feedback has the number of all right just if all pegs are right.
#[tactic(auto, using(crate::proofs::Numbers::right_numbered))]
pub fn right_numbered()
    ensures { RightNumbered }
{}

// The table of a game is a table.
pub fn is_game_table()
    ensures { GameTable }
{}

// The row of each guess is its row.
#[tactic(auto, using(crate::proofs::Entries::rows_tell))]
pub fn rows_tell()
    ensures { RowsTell }
{}

// Each entry is the number of what is told.
#[tactic(auto, using(crate::proofs::Entries::entries_tell))]
pub fn entries_tell()
    ensures { EntriesTell }
{}

// An entry is the number of feedback just where that is told.
#[tactic(auto, using(crate::proofs::Entries::entries_part))]
pub fn entries_part()
    ensures { EntriesPart }
{}

// What is looked up is what is told.
#[tactic(auto, using(crate::proofs::Entries::look_up_tells))]
pub fn look_up_tells()
    ensures { LookUpTells }
{}

// All right is told on the diagonal, and nowhere else.
#[tactic(auto, using(crate::proofs::Entries::diagonal))]
pub fn diagonal()
    ensures { Diagonal }
{}
