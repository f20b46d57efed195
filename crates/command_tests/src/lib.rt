//! Tests of whole commands, over files and texts in memory.
#![tactic(auto)]

#[cfg(test)]
mod elf;
#[cfg(test)]
mod events;
#[cfg(test)]
mod expansion;
#[cfg(test)]
mod folders;
#[cfg(test)]
mod objects;
#[cfg(test)]
mod outside;
#[cfg(test)]
mod raw;
#[cfg(test)]
mod recording;
#[cfg(test)]
mod stage;
#[cfg(test)]
mod unit;
#[cfg(test)]
mod whole;
