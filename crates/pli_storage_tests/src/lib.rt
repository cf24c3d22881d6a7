//! Tests of regions, of areas, of storage, and of storage by locators.
//!
//! `area_..` make calls on an area and on a plain one beside it; the others on storage, in which areas are, and on
//! plain storage. `numbers` gives random numbers, `steps` reads worked sequences.
#![tactic(auto)]

#[cfg(test)]
mod area_calls;
#[cfg(test)]
mod area_model;
#[cfg(test)]
mod area_pairs;
#[cfg(test)]
mod area_random;
#[cfg(test)]
mod area_sequences;
#[cfg(test)]
mod area_steps;
#[cfg(test)]
mod block_sequences;
#[cfg(test)]
mod calls;
#[cfg(test)]
mod items;
#[cfg(test)]
mod locator_sequences;
#[cfg(test)]
mod model;
#[cfg(test)]
mod modeled;
#[cfg(test)]
mod numbers;
#[cfg(test)]
mod pairs;
#[cfg(test)]
mod random;
#[cfg(test)]
mod regions;
#[cfg(test)]
mod shapes;
#[cfg(test)]
mod steps;
#[cfg(test)]
mod storage_sequences;
#[cfg(test)]
mod tested;
#[cfg(test)]
mod values;
#[cfg(test)]
mod words;
