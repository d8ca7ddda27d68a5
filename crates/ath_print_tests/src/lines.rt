ghost use Rattle.std.specs.Prelude.{◌≡◌, IfOk, ◌<◌, length};
ghost use Rattle.ath_terms.specs.SortsIn.{IsSortedIn};
ghost use Rattle.ath_terms.specs.Trees.{Trees, Grows};
ghost use Rattle.ath_print.specs.Stands.{IsEventIn};

use ath_env::Value;
use ath_names::Names;
use ath_print::limits::MOST_LINE_BYTES;
use ath_print::{Event, Fault, FaultArg, FaultKind, line, line_bytes};
use ath_sorts::sorts::con;
use ath_sorts::{SVar, Signature, Sort, Sym};
use ath_syntax::Pos;
use ath_terms::Store;
use ath_trees::{Conn, Quant, TermId, Var};
use sqlite_items::Items;
use std::alloc::{AllocError, Global};
use std::process::Abort;
use std::test::Fail;

const A: Sym = Sym(150);

const B: Sym = Sym(151);

const AT: Pos = Pos {
    file: 0,
    line: 2,
    col: 31,
};

fn names(alloc: Global) -> Result<Names, Fail> {
    let mut names = Names::new(alloc)?;
    names.intern(alloc, "A")?;
    names.intern(alloc, "B")?;
    Ok(names)
}

fn files(alloc: Global) -> Result<Vec<String>, AllocError> {
    let mut all = Vec::new(alloc);
    for name in ["x.ath", "a \"b\"\\c\td\x01\x7f.ath"] {
        all.push(String::from_str(alloc, name)?)?;
    }
    Ok(all)
}

/// Compares the line of an event with this one.
fn expect_line(
    rt: &(impl Abort + AllocGlobal),
    event: &Event,
    sig: &Signature,
    store: &Store,
    expected: &str,
) -> Result<(), Fail>
    requires inside { IsEventIn store.now event.now }
    requires sorted { IsSortedIn sig.now store.now }
{
    let alloc = rt.alloc();
    let names = names(alloc)?;
    let files = files(alloc)?;
    let bytes = line(alloc, event, &names, files.as_slice(), sig, store)?;
    assert_eq!(rt; bytes.as_slice(), expected.as_bytes(), "{expected}");
    Ok(())
}

/// Compares the line of an event that names no node with this one.
fn expect_plain(rt: &(impl Abort + AllocGlobal), event: &Event, expected: &str) -> Result<(), Fail>
    requires { (s : Trees) → IsEventIn s event.now }
{
    let alloc = rt.alloc();
    let sig = Signature::new(alloc)?;
    let store = Store::new(alloc);
    expect_line(rt, event, &sig, &store, expected)
}

#[test]
fn places(rt: HostRuntime) -> Result<(), Fail> {
    let alloc = rt.alloc();
    let unbound = Fault::naming(alloc, FaultKind::Unbound, FaultArg::Name(B))?;
    let odd = Pos {
        file: 1,
        line: 1,
        col: 7,
    };
    expect_plain(
        &rt,
        &Event::Error(odd, unbound),
        "Error: \"a \\\"b\\\"\\\\c\\td\\x01\\x7f.ath\":1:7: Unbound B\n",
    )?;
    expect_plain(&rt, &Event::Fuel(AT), "Fuel: \"x.ath\":2:31: out of fuel\n")
}

#[test]
fn numbers_and_names(rt: HostRuntime) -> Result<(), Fail> {
    let alloc = rt.alloc();
    let counted = Fault::naming_two(
        alloc,
        FaultKind::ArgCount,
        FaultArg::Number(2),
        FaultArg::Number(3),
    )?;
    expect_plain(
        &rt,
        &Event::Error(AT, counted),
        "Error: \"x.ath\":2:31: ArgCount 2 3\n",
    )?;
    let unbuilt = Fault::plain(alloc, FaultKind::NotBuilt);
    expect_plain(
        &rt,
        &Event::Error(AT, unbuilt),
        "Error: \"x.ath\":2:31: NotBuilt\n",
    )?;
    let loose = Fault::naming(alloc, FaultKind::LooseParam, FaultArg::SortName(A))?;
    expect_plain(
        &rt,
        &Event::Error(AT, loose),
        "Error: \"x.ath\":2:31: LooseParam 'A\n",
    )
}

/// A sort constructor with two variables below it.
fn pair(alloc: Global, first: SVar, second: SVar) -> Result<Sort, AllocError> {
    let mut args = Items::new(alloc);
    args.push(Sort::Var(first))?;
    args.push(Sort::Var(second))?;
    con(alloc, B, args)
}

#[test]
fn sort_variables_of_one_line(rt: HostRuntime) -> Result<(), Fail> {
    let alloc = rt.alloc();
    let made = SVar::Made(7);
    let written = SVar::Written(A);
    let clash = Fault::naming_two(
        alloc,
        FaultKind::SortClash,
        FaultArg::Sort(pair(alloc, written, made)?),
        FaultArg::Sort(pair(alloc, made, SVar::Made(8))?),
    )?;
    expect_plain(
        &rt,
        &Event::Error(AT, clash),
        "Error: \"x.ath\":2:31: SortClash (B 'S1 'S2) (B 'S2 'S3)\n",
    )
}

/// Adds a variable whose sort is a variable.
fn variable(
    alloc: Global,
    sig: &Signature,
    store: &mut Store,
    name: Sym,
    index: u64,
    sort: SVar,
) -> Result<TermId, Fail>
    requires { IsSortedIn sig.now store.old }
    ensures inside { IfOk result (λ t. t.0 < length store.new.terms) }
    ensures sorted { IfOk result (λ t. IsSortedIn sig.now store.new) }
    ensures grows { Grows store.old store.new }
{
    let v = Var {
        name,
        index,
        sort: Sort::Var(sort),
    };
    let t = store.var(&v)?;
    Ok(t)
}

#[test]
fn variables(rt: HostRuntime) -> Result<(), Fail> {
    let alloc = rt.alloc();
    let sig = Signature::new(alloc)?;
    let mut store = Store::new(alloc);
    let t = variable(alloc, &sig, &mut store, A, 0, SVar::Made(7))?;
    let plain = Event::Shown(Value::Term(t));
    expect_line(&rt, &plain, &sig, &store, "Term: ?A:'S1\n")?;
    let u = variable(alloc, &sig, &mut store, A, 3, SVar::Written(B))?;
    let indexed = Event::Shown(Value::Term(u));
    expect_line(&rt, &indexed, &sig, &store, "Term: ?A%3:'S1\n")
}

#[test]
fn declarations(rt: HostRuntime) -> Result<(), Fail> {
    let alloc = rt.alloc();
    expect_plain(&rt, &Event::Domain(B), "Domain: B\n")?;
    let symbols = Event::Symbols(Items::from_slice(alloc, &[A, B])?);
    expect_plain(&rt, &symbols, "Symbols: A, B\n")
}

#[test]
fn values_without_nodes(rt: HostRuntime) -> Result<(), Fail> {
    expect_plain(&rt, &Event::Shown(Value::Symbol(Sym(3))), "Symbol: =\n")?;
    let biconditional = Value::Conn(Conn::Iff);
    expect_plain(&rt, &Event::Shown(biconditional), "Symbol: iff\n")?;
    let exists = Value::Quant(Quant::Exists);
    expect_plain(&rt, &Event::Shown(exists), "Symbol: exists\n")?;
    expect_plain(&rt, &Event::Shown(Value::Back), "Symbol: <==\n")?;
    expect_plain(&rt, &Event::Shown(Value::PrimMethod(0)), "Method: claim\n")?;
    expect_plain(&rt, &Event::Shown(Value::PrimMethod(1)), "Method: mp\n")
}

/// The bytes of the line of 83,055 symbols with names of 200 bytes and of one with a name of so many.
fn bytes_of_symbols(rt: &(impl Abort + AllocGlobal), last: u64) -> Result<u64, Fail> {
    let alloc = rt.alloc();
    let mut names = names(alloc)?;
    let long = names.intern(alloc, repeated(alloc, 200)?.as_str())?;
    let short = names.intern(alloc, repeated(alloc, last)?.as_str())?;
    let mut symbols = Vec::new(alloc);
    for _ in 0..83_055 {
        symbols.push(Sym(long))?;
    }
    symbols.push(Sym(short))?;
    let event = Event::Symbols(Items::from_slice(alloc, symbols.as_slice())?);
    let sig = Signature::new(alloc)?;
    let store = Store::new(alloc);
    Ok(line_bytes(alloc, &event, &names, &sig, &store)?)
}

fn repeated(alloc: Global, times: u64) -> Result<String, AllocError> {
    let mut name = String::new(alloc);
    for _ in 0..times {
        name.push_str("a")?;
    }
    Ok(name)
}

#[test]
fn longest_lines(rt: HostRuntime) -> Result<(), Fail> {
    assert_eq!(rt; bytes_of_symbols(&rt, 95)?, MOST_LINE_BYTES - 1);
    assert_eq!(rt; bytes_of_symbols(&rt, 96)?, MOST_LINE_BYTES);
    assert_eq!(rt; bytes_of_symbols(&rt, 97)?, MOST_LINE_BYTES + 1);
    assert_eq!(rt; bytes_of_symbols(&rt, 200)?, MOST_LINE_BYTES + 1);
    Ok(())
}

#[test]
fn bytes_without_names_of_files(rt: HostRuntime) -> Result<(), Fail> {
    let alloc = rt.alloc();
    let names = names(alloc)?;
    let sig = Signature::new(alloc)?;
    let store = Store::new(alloc);
    let bytes = line_bytes(alloc, &Event::Fuel(AT), &names, &sig, &store)?;
    assert_eq!(rt; bytes, 25);
    Ok(())
}
