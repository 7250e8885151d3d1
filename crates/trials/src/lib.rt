// Trials of the shared store by its public calls: runs whose every word was worked out by hand.
#![tactic(auto)]

#[cfg(test)]
mod beside;
#[cfg(test)]
mod claim;
#[cfg(test)]
mod each_kind;
#[cfg(test)]
mod full;
#[cfg(test)]
mod largest;
#[cfg(test)]
mod limits;
#[cfg(test)]
mod performed;
#[cfg(test)]
mod recheck;
#[cfg(test)]
mod refused_calls;
#[cfg(test)]
mod refused_makes;
#[cfg(test)]
mod refused_turns;
#[cfg(test)]
mod refused_walks;
#[cfg(test)]
mod second_node;
#[cfg(test)]
mod states;
#[cfg(test)]
mod unit;
#[cfg(test)]
mod words;
