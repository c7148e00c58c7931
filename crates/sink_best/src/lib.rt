//! Where rounds of sinking come to rest, no list of steps leaves fewer: a law of what `rounds` of `sink_rounds`
//! promises. In: a graph and its rounds. Out: nothing. Its theorem: no list of steps from the graph, of any length, leaves
//! fewer of a plain or movable assignment on any full path than the last round (`best_at_rest` of `specs/AtRest.antt`).
#![tactic(auto)]
