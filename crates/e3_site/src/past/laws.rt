// A law of the records that a step makes: they may follow the log of their site.
ghost use Rattle.e3_site.specs.past.Claims.{StepsMayFollow};

/// The records of any step may follow the site's log, whatever that log is, what the site did before, and what the step
/// takes: none is a birth, and none is a vote for or a decision of a transaction that the log decides.
pub fn steps_may_follow_the_log()
    ensures { StepsMayFollow }
{}
