// Laws of keys. Each function is a law: its contract, and no code.

ghost use Rattle.ath_alpha.specs.Keys.{InstancesHaveOneKey, KeysAreKept, KeysTellForms};

/// Two sentences have one key exactly where their nameless forms are one with all sorts left out.
pub fn keys_tell_forms()
    ensures { KeysTellForms }
{}

/// A sentence and its sort instances have one key.
pub fn instances_have_one_key()
    ensures { InstancesHaveOneKey }
{}

/// A sentence keeps its key while the store grows.
pub fn keys_are_kept()
    ensures { KeysAreKept }
{}
