// The laws of the turn: checked quarter turns, no turn, and where NaR comes from. There is no code here.
#![tactic(auto)]
