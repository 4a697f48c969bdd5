//! Tests of all crates: what neither a clause, a script nor a story of events shows.
#![tactic(auto)]

#[cfg(test)]
mod at_once;
#[cfg(test)]
mod board;
#[cfg(test)]
mod calls;
#[cfg(test)]
mod faults;
#[cfg(test)]
mod frames;
#[cfg(test)]
mod in_turn;
#[cfg(test)]
mod lent;
#[cfg(test)]
mod outside;
#[cfg(test)]
mod served;
#[cfg(test)]
mod sets;
#[cfg(test)]
mod workers;
