//! Tests of what neither a document nor a sweep can show: calls on values of their own, with answers that were worked
//! out by hand.
#![tactic(auto)]

#[cfg(test)]
mod batches;
#[cfg(test)]
mod bells;
#[cfg(test)]
mod carries;
#[cfg(test)]
mod cues;
#[cfg(test)]
mod desks;
#[cfg(test)]
mod devices;
#[cfg(test)]
mod fixtures;
#[cfg(test)]
mod lines_together;
#[cfg(test)]
mod meeting;
#[cfg(test)]
mod scripts;
#[cfg(test)]
mod sleepers;
#[cfg(test)]
mod workers;
