//! Tests of how a script's lines are read, how the lines that it prints are written, and how the loop between them reads and writes.

mod commands;
mod echo;
mod endings;
mod output;
mod transfers;
