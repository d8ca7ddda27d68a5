// What isn't built yet.

ghost use Rattle.std.specs.Prelude.{◌≡◌, ◌<◌, option_map, IfSome};
ghost use Rattle.std.specs.List.{All};
ghost use Rattle.ath_syntax.specs.Stands.{IsPhrase, ArePhrases, IsStatement};
ghost use Rattle.ath_syntax.specs.Tree.{Phrase, Statement};
ghost use Rattle.ath_session.specs.Unbuilt.{is_name, is_head, is_method_name, unbuilt, unbuilt_in};
ghost use Rattle.ath_session.specs.Parts.{ArePartsOf, parts};

use ath_env::text_of;
use ath_names::Names;
use ath_syntax::{Form, PhraseId, Phrases, Pos, What};
use std::slice;

fn is_name(names: &Names, phrases: &Phrases, phrase: PhraseId, text: &str) -> bool
    requires { (x : Phrase) × IsPhrase phrases.now phrase x }
    ensures { (x : Phrase) → IsPhrase phrases.now phrase x → result ≡ is_name names.now text.now x }
{
    match &phrases.node(phrase).form {
        Form::Name(name) => text_of(names, *name) == text,
        _other => false,
    }
}

/// Whether a phrase is a name, of which an application may be built.
fn is_head(phrases: &Phrases, phrase: PhraseId) -> bool
    requires { (x : Phrase) × IsPhrase phrases.now phrase x }
    ensures { (x : Phrase) → IsPhrase phrases.now phrase x → result ≡ is_head x }
{
    match &phrases.node(phrase).form {
        Form::Name(_) => true,
        _other => false,
    }
}

fn is_method_name(names: &Names, phrases: &Phrases, phrase: PhraseId) -> bool
    requires { (x : Phrase) × IsPhrase phrases.now phrase x }
    ensures { (x : Phrase) → IsPhrase phrases.now phrase x → result ≡ is_method_name names.now x }
{
    is_name(names, phrases, phrase, "mp") || is_name(names, phrases, phrase, "claim")
}

/// The parts of a built node, which have to be built too; none where the node isn't built.
fn built_parts<'a>(names: &Names, phrases: &'a Phrases, phrase: PhraseId) -> Option<&'a [PhraseId]>
    requires { (x : Phrase) × IsPhrase phrases.now phrase x }
    ensures parts { (x : Phrase) → IsPhrase phrases.now phrase x → ArePartsOf phrases.now (option_map (λ is. is.now) result) (parts names.now x) }
    ensures smaller { IfSome result (λ is. All (λ i. i.0 < phrase.0) is.now) }
{
    match &phrases.node(phrase).form {
        Form::Name(_) => Some(&[]),
        Form::Var(_, _, _) => Some(&[]),
        Form::Ascribe(part, _) => Some(slice::from_ref(part)),
        Form::Apply(head, parts) => {
            if is_head(phrases, *head) {
                return Some(parts.as_slice());
            }
            None
        }
        Form::Call(head, parts) => {
            if is_method_name(names, phrases, *head) {
                return Some(parts.as_slice());
            }
            None
        }
        _other => None,
    }
}

/// The place of the first node of a phrase that isn't built, in order of text.
pub(crate) fn unbuilt(names: &Names, phrases: &Phrases, phrase: PhraseId) -> Option<Pos>
    requires { (x : Phrase) × IsPhrase phrases.now phrase x }
    ensures { (x : Phrase) → IsPhrase phrases.now phrase x → result ≡ unbuilt names.now x }
{
    let Some(parts) = built_parts(names, phrases, phrase) else {
        return Some(phrases.node(phrase).pos);
    };
    for part in parts {
        let found = unbuilt(names, phrases, *part);
        if found.is_some() {
            return found;
        }
    }
    None
}

/// The place of the first node that isn't built of what a directive says, which stands at `at`.
pub(crate) fn unbuilt_in(names: &Names, phrases: &Phrases, at: Pos, what: &What) -> Option<Pos>
    requires { (x : Statement) × IsStatement phrases.now what.now x }
    ensures { (x : Statement) → IsStatement phrases.now what.now x → result ≡ unbuilt_in names.now at x }
{
    match what {
        What::Assert(name, _, phrase) => {
            if name.is_some() {
                return Some(at);
            }
            unbuilt(names, phrases, *phrase)
        }
        What::Domain(_, _) => None,
        What::Declare(_, _, _, _) => None,
        What::Load(_) => None,
        What::Phrase(phrase) => unbuilt(names, phrases, *phrase),
        _other => Some(at),
    }
}
