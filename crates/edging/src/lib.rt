// A map's edges read from its payload (document 01, "Block files").
//
//     edges    the edges, entered into the rows of the adjacency
#![tactic(auto)]

pub mod edges;
