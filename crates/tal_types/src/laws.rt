ghost use Rattle.tal_types.specs.Laws.{TypeLaws};

/// What holds of registers, types and contexts: classes, types, flag kinds and contexts are ordered, the test of
/// contexts is their order, and the tests of registers are of each.
pub fn type_laws()
    ensures { TypeLaws }
{}
