//! Tests of the board over public calls: work that is lent, prepared and committed, twice and to a board that changed meanwhile
//! (`trials`), and receipts compared with the journal (`receipts`); and of clusters whose silos run in threads: what no contract can say,
//! that two silos are at work at once (`gate`), and that what they did beside a driver that goes on posting is what their journal tells
//! (`crowd`).
#![tactic(auto)]

#[cfg(test)]
mod crowd;
#[cfg(test)]
mod desk;
#[cfg(test)]
mod driver;
#[cfg(test)]
mod gate;
#[cfg(test)]
mod readers;
#[cfg(test)]
mod receipts;
#[cfg(test)]
mod replay;
#[cfg(test)]
mod scripts;
#[cfg(test)]
mod steps;
#[cfg(test)]
mod trials;
