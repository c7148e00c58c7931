//! Graphs that steps have made of a source, seen from the paths of the source: laws alone, told of numbered nodes.
//! In: what the nodes of a source do, and a graph that stands over its paths. Out: nothing. Its theorem: what still
//! stands in a graph at rest, no sinking and no removal takes from a graph that has it (`sinking_keeps`,
//! `removal_keeps` of `specs/Kept.antt`).
#![tactic(auto)]
