ghost use Rattle.std.specs.Prelude.{◌≡◌};
ghost use Rattle.eip_route_print.specs.Formed.{SetFormed};
ghost use Rattle.eip_route.specs.Nest.{NestedSet, flat_set, un_set};
ghost use Rattle.eip_route.specs.declared.route.Names.{Names as NamesGiven};

/// How blocks are numbered loses nothing: from the numbered blocks the steps come back as they nested, where each frame
/// has as many groups as it is to have, and each repository that is named has a Name. It does nothing.
pub fn numbering_law()
    ensures { (names : NamesGiven) (s : NestedSet) → SetFormed s → un_set (flat_set names s) ≡ s }
{}
