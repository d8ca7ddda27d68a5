use super::*;
use ath_io::MemorySink;
use std::fs;
use std::test::Fail;

#[test]
fn faults_are_told_with_their_names(rt: HostRuntime) -> Result<(), Fail> {
    let alloc = rt.alloc();
    fs::write(&rt, "good.ath", "true true")?;
    fs::write(&rt, "loads.ath", "true load \"gone.ath\" true")?;
    let usage = "usage: athena [--fuel N] FILE.. | athena [--fuel N] --generate N\n";
    let rows: [(&[&str], usize, u8, &str, &str); 7] = [
        (&["good.ath"], 100, 0, "Term: true\nTerm: true\n", ""),
        (
            &["--fuel", "1", "good.ath"],
            100,
            3,
            "Term: true\nFuel: \"good.ath\":1:6: out of fuel\n",
            "",
        ),
        (&[], 100, 2, "", usage),
        (
            &["good.ath", "a\nb"],
            100,
            4,
            "Term: true\nTerm: true\n",
            "athena: can't read \"a\\nb\"\n",
        ),
        (
            &["loads.ath"],
            100,
            4,
            "Term: true\n",
            "athena: can't read \"gone.ath\"\n",
        ),
        (
            &["good.ath"],
            13,
            5,
            "Term: true\nTe",
            "athena: can't write to standard output\n",
        ),
        (
            &["good.ath"],
            0,
            5,
            "",
            "athena: can't write to standard output\n",
        ),
    ];
    for (given, room, number, lines, said) in rows {
        let mut words = Vec::new(alloc);
        for word in given {
            words.push(String::from_str(alloc, word)?)?;
        }
        let mut sink = MemorySink::new(alloc, room, Vec::new(alloc))?;
        let mut errors = MemorySink::new(alloc, 200, Vec::new(alloc))?;
        let status = run(&rt, &words, &mut sink, &mut errors);
        assert_eq!(rt; exit_number(status), number, "{lines}");
        assert_eq!(rt; sink.bytes(), lines.as_bytes(), "{lines}");
        assert_eq!(rt; errors.bytes(), said.as_bytes(), "{said}");
    }
    Ok(())
}
