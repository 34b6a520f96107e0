ghost use Rattle.eip_verdict.specs.Statements.{OneAnswer, OneVerdict, LegalExactly};
ghost use Rattle.eip_history.specs.Example.{small};
ghost use Rattle.eip_verdict.specs.declared.verdict.Verdict.TheVariants.{Wrong};
ghost use Rattle.eip_verdict.specs.Verdicts.{Says};
ghost use Rattle.eip_verdict.specs.Example.{pulled_twice, too_far};

/// What a run answers itself is determined by its past: of two answers at most one may come. It does nothing.
pub fn one_answer_law()
    ensures { OneAnswer }
{}

/// A journal has one verdict. It does nothing.
pub fn one_verdict_law()
    ensures { OneVerdict }
{}

/// A journal's verdict is Legal exactly where the journal is legal. It does nothing.
pub fn legal_law()
    ensures { LegalExactly }
{}

/// A source that is pulled while it is out breaks rule 1, and a clock that moves past the moment at which somebody is due breaks
/// rule 9. It does nothing.
pub fn wrong_examples()
    ensures pulled_twice { Says small 0 100 pulled_twice (Wrong 2 1) }
    ensures too_far { Says small 0 100 too_far (Wrong 14 9) }
{}
