//! The worked edges of the rules: those that are proved of the definitions, in one statement, and tests of the calls.
#![tactic(auto)]

ghost use Rattle.edges.specs.Edges.{Edges};

#[cfg(test)]
mod size_classes;

/// The edges that are proved of the definitions.
pub fn edges_hold()
    ensures { Edges }
{}
