// Directives.

use crate::node::{PhraseId, SortText};
use crate::place::{Group, Pos};
use crate::text::Text;
use ath_sorts::Sym;
use sqlite_items::Items;

/// What a directive says.
#[derive(Debug, Drop)]
pub enum What {
    /// the name and the sort variables of its header
    Domain(Sym, Items<Sym>),
    /// the name, the sort variables of its header, and the constructors with the sorts of their arguments
    Datatype(Sym, Items<Sym>, Items<(Sym, Items<SortText>)>),
    /// the names, the parameters where they are written, the sorts of the arguments, and that of the result
    Declare(Items<Sym>, Option<Items<Sym>>, Items<SortText>, SortText),
    Define(Sym, PhraseId),
    /// the name, its parameters, and the body
    DefineFun(Sym, Items<Sym>, PhraseId),
    /// the name that is bound, whether free variables are closed over, and the phrase
    Assert(Option<Sym>, bool, PhraseId),
    ModuleBegin(Sym),
    ModuleEnd,
    Open(Sym),
    Load(Text),
    Operator(Sym, u32, Group),
    Phrase(PhraseId),
}

/// A directive and its place.
#[derive(Drop)]
pub struct Directive {
    pub pos: Pos,
    pub what: What,
}
