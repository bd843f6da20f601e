//! That a flat model leaves no choice of its matrix, as a law over all flat models: each bit of a row is told, by the tests
//! that are taken and past them, and weights, costs and labels are the flat model's own.
ghost use Rattle.sig_matrix.specs.Laws.{HasOneMatrix};

/// Two matrices of one flat model, with all its tests or those of one mode, are the same.
pub fn one_matrix()
    ensures { HasOneMatrix }
{}
