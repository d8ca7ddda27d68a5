// Laws of methods. Each function is a law: its contract, and no code.

ghost use Rattle.ath_prims.specs.Follows.{AnswersFollow};

/// What a method concludes is derivable where its arguments are that hold.
pub fn answers_follow()
    ensures { AnswersFollow }
{}
