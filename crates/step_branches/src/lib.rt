//! A path over cells is a branch of a level: from what the cells of a path say of states to whole next states, between which
//! a step leads.
#![tactic(auto)]
