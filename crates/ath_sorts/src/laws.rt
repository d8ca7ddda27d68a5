// Laws of signatures, substitutions and instances. Each clause is a law, and there is no code.

ghost use Rattle.ath_sorts.specs.Laws.{ApplyingIsComposition, FirstSignatureIsValid, InstancesAgree, SortsKeepValidity, SymbolsKeepValidity};

/// To apply two substitutions in turn is to apply one. Two instances of one list off the same rigid variables are equal.
///
/// The first signature is valid. A sort constructor that isn't refused keeps a signature valid, and so does a symbol, where
/// its parameters differ and no variable in its sorts was made.
pub fn laws()
    ensures applying_is_composition { ApplyingIsComposition }
    ensures instances_agree { InstancesAgree }
    ensures first_signature_is_valid { FirstSignatureIsValid }
    ensures sorts_keep_validity { SortsKeepValidity }
    ensures symbols_keep_validity { SymbolsKeepValidity }
{}
