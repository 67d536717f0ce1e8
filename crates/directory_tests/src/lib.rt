//! Tests of the whole directory over public calls: of silos' nodes, the mail and clusters (`nodes`, `worlds` and those beside them); of
//! how a script's lines are read and written and of the loop between (`script`), of whole scripts, command lines and dumps (`play`), of
//! letters as lines (`letters`), and of all lines of a silo's process (`lines`). They stand in a crate of their own, since a crate with
//! tests is proved twice.
#![tactic(auto)]

#[cfg(test)]
mod beside;
#[cfg(test)]
mod fakes;
#[cfg(test)]
mod handing;
#[cfg(test)]
mod leaving;
#[cfg(test)]
mod letters;
#[cfg(test)]
mod limits;
#[cfg(test)]
mod lines;
#[cfg(test)]
mod mails;
#[cfg(test)]
mod moving;
#[cfg(test)]
mod nodes;
#[cfg(test)]
mod play;
#[cfg(test)]
mod script;
#[cfg(test)]
mod spent;
#[cfg(test)]
mod steps;
#[cfg(test)]
mod surveys;
#[cfg(test)]
mod worlds;
