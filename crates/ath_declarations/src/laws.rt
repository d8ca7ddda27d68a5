// Laws of declarations. Each function is a law: its contract, and no code.

ghost use Rattle.ath_declarations.specs.Laws.{DomainsAreThere, DomainsKeep, DomainsKeepNarrow, DomainsKeepValidity, SymbolsAreThere, SymbolsKeep, SymbolsKeepNarrow, SymbolsKeepValidity, TextsMeanSorts};

/// A sort that a text means has its constructors at their arities and is within the limits, and none of its variables was
/// made.
pub fn texts_mean_sorts()
    ensures { TextsMeanSorts }
{}

/// A domain that isn't refused is there, with an argument for each variable of its header.
pub fn domains_are_there()
    ensures { DomainsAreThere }
{}

/// Declared symbols that aren't refused are there, with their parameters and the sorts that their texts spell.
pub fn symbols_are_there()
    ensures { SymbolsAreThere }
{}

/// A domain keeps every sort and symbol that was there.
pub fn domains_keep()
    ensures { DomainsKeep }
{}

/// Declared symbols keep every sort and symbol that was there.
pub fn symbols_keep()
    ensures { SymbolsKeep }
{}

/// A domain keeps a signature valid.
pub fn domains_keep_validity()
    ensures { DomainsKeepValidity }
{}

/// Declared symbols keep a signature valid, where the parameters that are listed differ.
pub fn symbols_keep_validity()
    ensures { SymbolsKeepValidity }
{}

/// A domain keeps each symbol at 64 parameters at most.
pub fn domains_keep_narrow()
    ensures { DomainsKeepNarrow }
{}

/// So do declared symbols.
pub fn symbols_keep_narrow()
    ensures { SymbolsKeepNarrow }
{}
