// Hostile use: each load and each put fails in turn, and inputs are cut or too large.
mod changing;
mod cuts;
mod example;
mod large;
mod lengths;
mod lines;
mod loads;
mod memory;
mod notes;
mod over_files;
mod planted;
mod probing;
mod puts;
mod two_calls;
