//! Tests of whole scripts, played to a cluster, of command lines, carried out, and of dumps, read, written and judged.

mod accepted_lines;
mod command_lines;
mod cuts;
mod endings;
mod judged_rings;
mod limits;
mod memory;
mod plays;
mod read_dumps;
mod rows;
mod runs;
mod streams;
