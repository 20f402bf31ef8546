//! One class, straight on.

ghost use Rattle.vx_computed.specs.Straight.{WholeRun, AttemptsOfRun, JustEnough, OneAttemptShort, TwoAttemptsShort, OperandMissing};

/// One class, straight on: what is written, ends, limits and numbers of attempts.
pub fn straight_runs()
    // A run that returns.
    ensures whole_run { WholeRun }
    // The same with its attempts.
    ensures attempts_of_run { AttemptsOfRun }
    // With as many attempts as it needs.
    ensures just_enough { JustEnough }
    // With one attempt less.
    ensures one_attempt_short { OneAttemptShort }
    // With two attempts less.
    ensures two_attempts_short { TwoAttemptsShort }
    // An operand that is missing.
    ensures operand_missing { OperandMissing }
{}
