//! Tests of workers who are held at a gate that sees each point of each tile: a scan, at each point of each tile; each call in
//! scripts, in short tiles and near the lengths from which on workers race; how often elements were read before each point; and
//! the program.

mod held_scans;
mod long_scripts;
mod program;
mod readings;
mod short_scripts;
