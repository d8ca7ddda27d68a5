// Kinds of phrases: what is wanted, and what fits.

ghost use Rattle.std.specs.Prelude.{◌≡◌};
ghost use Rattle.ath_grammar.specs.Tables.{both as both_of, same_kind as same_kind_of, fits as fits_of, bound as bound_of, after as after_of, want_of as wanted_by, told as told_to};

use ath_grammar::{Attr, Rule, Want};

/// Whether both are true.
pub(crate) fn both(a: bool, b: bool) -> bool
    ensures { result ≡ both_of a b }
{
    if a { b } else { false }
}

fn is_same(a: bool, b: bool) -> bool
    ensures { result ≡ same_kind_of a b }
{
    if a {
        b
    } else if b {
        false
    } else {
        true
    }
}

/// Whether a phrase that is this may stand where that is wanted.
pub(crate) fn fits(wanted: Want, is: Want) -> bool
    ensures { result ≡ fits_of wanted is }
{
    match wanted {
        Want::Any => true,
        Want::Only(a) => match is {
            Want::Any => true,
            Want::Only(b) => is_same(a, b),
        },
    }
}

fn bound(want: Want) -> Want
    ensures { result ≡ bound_of want }
{
    match want {
        Want::Any => Want::Any,
        Want::Only(deduction) => {
            if deduction {
                Want::Any
            } else {
                Want::Only(false)
            }
        }
    }
}

fn after(want: Want, deduction: bool) -> Want
    ensures { result ≡ after_of want deduction }
{
    if deduction { Want::Only(true) } else { want }
}

/// What is wanted by an attribute, where the phrase that was read last is a deduction or not.
pub(crate) fn want_of(attr: Attr, deduction: bool) -> Want
    ensures { result ≡ wanted_by attr deduction }
{
    match attr {
        Attr::Is(want) => want,
        Attr::Given(rule, want) => match rule {
            Rule::Same => want,
            Rule::AsTop => Want::Only(deduction),
            Rule::Bound => bound(want),
            Rule::After => after(want, deduction),
        },
    }
}

/// The attribute of a part, where this is wanted of the whole.
pub(crate) fn told(want: Want, attr: Attr) -> Attr
    ensures { result ≡ told_to want attr }
{
    match attr {
        Attr::Is(_) => attr,
        Attr::Given(rule, _) => Attr::Given(rule, want),
    }
}
