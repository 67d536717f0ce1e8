//! Tests of what a directory node stands on, over public calls: texts, identities, ranges, views, rings and their moves, the types
//! of the rule, tables, what a silo keeps for others and hands over by pages, its activations, its recoveries, its cache, and
//! placement; and of rings that are published. They stand in a crate of their own, since a crate with tests is proved twice.
#![tactic(auto)]

#[cfg(test)]
mod cache;
#[cfg(test)]
mod digits;
#[cfg(test)]
mod holdings;
#[cfg(test)]
mod hosts;
#[cfg(test)]
mod identities;
#[cfg(test)]
mod made;
#[cfg(test)]
mod moves;
#[cfg(test)]
mod numerals;
#[cfg(test)]
mod pages;
#[cfg(test)]
mod placement;
#[cfg(test)]
mod published;
#[cfg(test)]
mod ranges;
#[cfg(test)]
mod recoveries;
#[cfg(test)]
mod rings;
#[cfg(test)]
mod rules;
#[cfg(test)]
mod samples;
#[cfg(test)]
mod shelf;
#[cfg(test)]
mod short_entries;
#[cfg(test)]
mod tables;
#[cfg(test)]
mod views;
