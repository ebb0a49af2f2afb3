//! What a table's history is, and what holds of every legal one.
#![tactic(auto)]

ghost use Rattle.leaf_history.specs.Laws.{CountsStay, FrontsAreLegal, HistoriesGoOn, OneState, OthersKeep, ShutStaysShut};

/// Each prefix of a legal history is legal. A legal history that is followed by entries which are legal after it is
/// legal. A history leads to one state. Entries of callers leave what the steward knows.
pub fn histories_go_on()
    ensures fronts { FrontsAreLegal }
    ensures goes_on { HistoriesGoOn }
    ensures state { OneState }
    ensures shut { ShutStaysShut }
    ensures others { OthersKeep }
    ensures counts { CountsStay }
{}
