// The laws of the judge.
ghost use Rattle.e3_judge.specs.Claims.{IsExact, UpIsSite, ChecksAreGuard, NoBreachIsLegal, BreachIsBroken, WholeIsWhole};
ghost use Rattle.e3_judge.specs.Equal.{same_record, same_packet, same_input, same_told};

/// The tests of equality are true exactly where the two are equal, the checks of an entry behind a legal history all pass
/// exactly where its guard holds, and so no breach is found exactly where a history is legal.
pub fn checks_are_exact()
    ensures inputs { IsExact same_input }
    ensures records { IsExact same_record }
    ensures packets { IsExact same_packet }
    ensures events { IsExact same_told }
    ensures owners { UpIsSite }
    ensures guards { ChecksAreGuard }
    ensures legal { NoBreachIsLegal }
    ensures broken { BreachIsBroken }
    ensures whole { WholeIsWhole }
{}
