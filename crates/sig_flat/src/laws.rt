//! That a model leaves no choice of its flat model, as a law over all models.
//!
//! The definition tells of each node, link, fault and test what it has to be, and names nodes by their paths. So that it
//! decides the flat model wants that no two nodes share a path, which holds because no name repeats in its scope.
ghost use Rattle.sig_flat.specs.Laws.{HasOneFlat};

/// Two flat models of one valid model are the same.
pub fn one_flat()
    ensures { HasOneFlat }
{}
