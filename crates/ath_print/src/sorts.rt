// Sorts in a line.

ghost use Rattle.std.specs.Prelude.{◌≡◌, OnOk};
ghost use Rattle.ath_print.specs.Printers.{GoesOn};
ghost use Rattle.ath_print.specs.Prefix.{sort_printed};

use crate::draft::{Draft, is_full, put, put_sort_variable};
use ath_env::text_of;
use ath_names::Names;
use ath_sorts::Sort;
use std::alloc::{AllocError, Global};

pub fn put_sort(
    alloc: Global,
    names: &Names,
    sort: &Sort,
    draft: &mut Draft,
) -> Result<(), AllocError>
    ensures { OnOk result (GoesOn (sort_printed names.now sort.now) draft.old draft.new) }
{
    if is_full(draft) {
        return Ok(());
    }
    match sort {
        Sort::Var(v) => put_sort_variable(alloc, *v, draft),
        Sort::Con(name, args) => {
            let parts = args.as_slice();
            if parts.is_empty() {
                return put(draft, text_of(names, *name));
            }
            put(draft, "(")?;
            put(draft, text_of(names, *name))?;
            for part in parts {
                put(draft, " ")?;
                put_sort(alloc, names, part, draft)?;
            }
            put(draft, ")")?;
            Ok(())
        }
    }
}
