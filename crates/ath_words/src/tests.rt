use super::*;
use std::process::Abort;
use std::test::Fail;

fn words_of(alloc: Global, words: &[&str]) -> Result<Vec<String>, AllocError> {
    let mut all = Vec::new(alloc);
    for word in words {
        all.push(String::from_str(alloc, word)?)?;
    }
    Ok(all)
}

fn is_same(file: &str, other: &str) -> bool {
    file == other
}

/// Reads the words, and compares the run with this fuel and these files.
fn expect_run(
    rt: &(impl Abort + AllocGlobal),
    words: &[&str],
    fuel: u64,
    files: &[&str],
) -> Result<(), AllocError> {
    let owned = words_of(rt.alloc(), words)?;
    let Some(run) = read_words(rt.alloc(), owned.as_slice())? else {
        assert!(rt; false, "{words:?} spell no run");
        return Ok(());
    };
    assert_eq!(rt; run.fuel, fuel, "{words:?}");
    assert_eq!(rt; run.files.len(), files.len(), "{words:?}");
    for index in 0..files.len() {
        assert!(rt; is_same(run.files[index], files[index]), "{words:?}");
    }
    Ok(())
}

fn expect_none(rt: &(impl Abort + AllocGlobal), words: &[&str]) -> Result<(), AllocError> {
    let owned = words_of(rt.alloc(), words)?;
    assert!(rt;
        read_words(rt.alloc(), owned.as_slice())?.is_none(),
        "{words:?}"
    );
    Ok(())
}

#[test]
fn files(rt: HostRuntime) -> Result<(), Fail> {
    expect_run(&rt, &["a.ath"], 10_000_000, &["a.ath"])?;
    expect_run(&rt, &["a.ath", "b.ath"], 10_000_000, &["a.ath", "b.ath"])?;
    expect_run(&rt, &["a.ath", "a.ath"], 10_000_000, &["a.ath", "a.ath"])?;
    expect_run(&rt, &["-"], 10_000_000, &["-"])?;
    expect_run(&rt, &[""], 10_000_000, &[""])?;
    expect_run(&rt, &["a-b", "=", "é"], 10_000_000, &["a-b", "=", "é"])?;
    expect_run(&rt, &["--", "-x"], 10_000_000, &["-x"])?;
    expect_run(&rt, &["--", "--", "a"], 10_000_000, &["--", "a"])?;
    expect_run(&rt, &["--", "--generate"], 10_000_000, &["--generate"])?;
    Ok(())
}

#[test]
fn fuel_and_files(rt: HostRuntime) -> Result<(), Fail> {
    expect_run(&rt, &["--fuel", "5", "a.ath"], 5, &["a.ath"])?;
    expect_run(&rt, &["--fuel=5", "a.ath"], 5, &["a.ath"])?;
    expect_run(&rt, &["a", "--fuel", "5", "b"], 5, &["a", "b"])?;
    expect_run(&rt, &["a", "b", "--fuel=5"], 5, &["a", "b"])?;
    expect_run(&rt, &["--fuel=1", "-"], 1, &["-"])?;
    expect_run(&rt, &["--fuel", "1000000000", "a"], 1_000_000_000, &["a"])?;
    expect_run(
        &rt,
        &["a.ath", "--fuel", "5", "--", "--fuel"],
        5,
        &["a.ath", "--fuel"],
    )?;
    expect_run(&rt, &["--fuel", "3", "--", "--fuel"], 3, &["--fuel"])?;
    expect_run(&rt, &["--fuel=3", "--", "--fuel=4"], 3, &["--fuel=4"])?;
    Ok(())
}

#[test]
fn refused_words(rt: HostRuntime) -> Result<(), Fail> {
    expect_none(&rt, &[])?;
    expect_none(&rt, &["--"])?;
    expect_none(&rt, &["--help"])?;
    expect_none(&rt, &["-h", "a"])?;
    expect_none(&rt, &["-V"])?;
    expect_none(&rt, &["--version", "a"])?;
    expect_none(&rt, &["-x", "a"])?;
    expect_none(&rt, &["-é", "a"])?;
    expect_none(&rt, &["-5", "a"])?;
    expect_none(&rt, &["-=", "a"])?;
    expect_none(&rt, &["--=5", "a"])?;
    expect_none(&rt, &["--file", "a"])?;
    expect_none(&rt, &["--proofs", "x.ath"])?;
    expect_none(&rt, &["--generate", "5", "a.ath"])?;
    expect_none(&rt, &["--generate", "5"])?;
    expect_none(&rt, &["--generate=5"])?;
    expect_none(&rt, &["a.ath", "--generate", "5"])?;
    expect_none(&rt, &["--generate", "0"])?;
    Ok(())
}

#[test]
fn refused_fuel(rt: HostRuntime) -> Result<(), Fail> {
    expect_none(&rt, &["--fuel", "0", "a.ath"])?;
    expect_none(&rt, &["--fuel", "05", "a"])?;
    expect_none(&rt, &["--fuel", "1000000001", "a"])?;
    expect_none(&rt, &["--fuel", "18446744073709551617", "a"])?;
    expect_none(&rt, &["--fuel", "1_000", "x.ath"])?;
    expect_none(&rt, &["--fuel", "+5", "a"])?;
    expect_none(&rt, &["--fuel", "-5", "a"])?;
    expect_none(&rt, &["--fuel", "", "a"])?;
    expect_none(&rt, &["--fuel=", "a"])?;
    expect_none(&rt, &["--fuel==5", "a"])?;
    expect_none(&rt, &["--fuel"])?;
    expect_none(&rt, &["--fuel", "5"])?;
    expect_none(&rt, &["--fuel", "5", "--"])?;
    expect_none(&rt, &["--fuel", "a.ath"])?;
    expect_none(&rt, &["--fuel", "--", "a"])?;
    expect_none(&rt, &["--fuel", "-", "a"])?;
    expect_none(&rt, &["--fuel", "-x", "a"])?;
    expect_none(&rt, &["--fuel", "--fuel", "5", "a"])?;
    expect_none(&rt, &["--fuel", "5", "--fuel", "5", "a"])?;
    expect_none(&rt, &["--fuel", "5", "a", "--fuel=5"])?;
    expect_none(&rt, &["--fuel=5", "--fuel=5", "a"])?;
    expect_none(&rt, &["--fu", "5", "a"])?;
    expect_none(&rt, &["--fue", "5", "x.ath"])?;
    expect_none(&rt, &["--fuel5", "a"])?;
    expect_none(&rt, &["--Fuel", "5", "a"])?;
    Ok(())
}
