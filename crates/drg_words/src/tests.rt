//! Words by hand: the commands with all their options, and each odd word.
use crate::{Command, WordsFault, read};
use drg_array::{BUILT, Test, TestSet};
use std::alloc::{AllocError, Global};
use std::test::Fail;

/// The words of a text, with `|` between two. The text without a byte has no word.
fn words_of(alloc: Global, text: &str) -> Result<Vec<String>, AllocError> {
    let mut words = Vec::new(alloc);
    if text.is_empty() {
        return Ok(words);
    }
    for word in text.split('|') {
        words.push(word.to_string(alloc)?)?;
    }
    Ok(words)
}

/// Whether mult is selected, and no other built test.
fn has_mult_alone(tests: &TestSet) -> bool {
    BUILT
        .iter()
        .all(|test| tests.has(*test) == (*test == Test::Mult))
}

/// Whether all built tests are selected.
fn has_all(tests: &TestSet) -> bool {
    BUILT.iter().all(|test| tests.has(*test))
}

#[test]
fn reads_check(rt: HostRuntime) -> Result<(), Fail> {
    let alloc = rt.alloc();
    for (text, all, number, is_json, name) in [
        ("check|f", true, 10_000, false, "f"),
        ("check|--json|f", true, 10_000, true, "f"),
        ("check|f|--json", true, 10_000, true, "f"),
        ("check|--tests|mult|f", false, 10_000, false, "f"),
        ("check|--tests=mult|f", false, 10_000, false, "f"),
        ("check|f|--tests|mult", false, 10_000, false, "f"),
        ("check|--budget|1|f", true, 1, false, "f"),
        ("check|--budget=100000|f", true, 100_000, false, "f"),
        (
            "check|--json|--budget=7|f|--tests|mult",
            false,
            7,
            true,
            "f",
        ),
        (
            "check|--tests=mult|--json|--budget|7|--|f",
            false,
            7,
            true,
            "f",
        ),
        // `-` alone, the empty word and words with `=` are positional words.
        ("check|-", true, 10_000, false, "-"),
        ("check|", true, 10_000, false, ""),
        ("check|a=b", true, 10_000, false, "a=b"),
        ("check|check", true, 10_000, false, "check"),
        // After `--` every word is one, a second `--` too; a last `--` is allowed.
        ("check|f|--", true, 10_000, false, "f"),
        ("check|--|--json", true, 10_000, false, "--json"),
        ("check|--|--", true, 10_000, false, "--"),
        ("check|--|-x", true, 10_000, false, "-x"),
    ] {
        let words = words_of(alloc, text)?;
        let is_read = match read(alloc, words.as_slice()) {
            Ok(
                Command::Check {
                    tests,
                    budget,
                    json,
                    file,
                },
            ) => {
                let same_tests = if all {
                    has_all(&tests)
                } else {
                    has_mult_alone(&tests)
                };
                same_tests && budget == number && json == is_json && file.as_str() == name
            }
            _ => false,
        };
        assert!(rt; is_read, "{text}");
    }
    Ok(())
}

#[test]
fn reads_files(rt: HostRuntime) -> Result<(), Fail> {
    let alloc = rt.alloc();
    let words = words_of(alloc, "replay|f")?;
    let is_read = match read(alloc, words.as_slice()) {
        Ok(Command::Replay { file }) => file.as_str() == "f",
        _ => false,
    };
    assert!(rt; is_read);
    let words = words_of(alloc, "graph|--|-f")?;
    let is_read = match read(alloc, words.as_slice()) {
        Ok(Command::Graph { file }) => file.as_str() == "-f",
        _ => false,
    };
    assert!(rt; is_read);
    let words = words_of(alloc, "classical|f|--")?;
    let is_read = match read(alloc, words.as_slice()) {
        Ok(Command::Classical { file }) => file.as_str() == "f",
        _ => false,
    };
    assert!(rt; is_read);
    let words = words_of(alloc, "table|--budget=5|f|--tests|mult")?;
    let is_read = match read(alloc, words.as_slice()) {
        Ok(
            Command::Table {
                tests,
                budget,
                file,
            },
        ) => has_mult_alone(&tests) && budget == 5 && file.as_str() == "f",
        _ => false,
    };
    assert!(rt; is_read);
    Ok(())
}

#[test]
fn reads_numbers(rt: HostRuntime) -> Result<(), Fail> {
    let alloc = rt.alloc();
    for (text, first, second) in [
        ("sample|7|200", 7, 200),
        ("sample|0|0", 0, 0),
        ("sample|2147483647|100000", 2_147_483_647, 100_000),
        ("sample|--|7|200", 7, 200),
        ("sample|7|--|200", 7, 200),
    ] {
        let words = words_of(alloc, text)?;
        assert!(rt;
            matches!(
                read(alloc, words.as_slice()),
                Ok(Command::Sample { seed, count }) if seed == first && count == second
            ),
            "{text}"
        );
    }
    for (text, diameter, valency, vertices) in [
        ("census|2|3|10", 2, 3, 10),
        ("census|1|1|2", 1, 1, 2),
        ("census|4|32|2000", 4, 32, 2000),
        ("census|2|3|--|10", 2, 3, 10),
    ] {
        let words = words_of(alloc, text)?;
        assert!(rt;
            matches!(
                read(alloc, words.as_slice()),
                Ok(Command::Census { d, k, n }) if d == diameter && k == valency && n == vertices
            ),
            "{text}"
        );
    }
    Ok(())
}

#[test]
fn refuses_words(rt: HostRuntime) -> Result<(), Fail> {
    let alloc = rt.alloc();
    for text in [
        // No command.
        "",
        "|check|f",
        "--|check|f",
        "chekc|f",
        "Check|f",
        "chec|f",
        "help",
        "--help",
        "--version",
        "check",
        "check|--help",
        "check|f|--help",
        "replay",
        "table",
        "sample",
        "graph",
        "classical",
        "census",
        // Too many positional words.
        "check|f|g",
        "check|f|",
        "check|f|--|g",
        "replay|f|g",
        "sample|1|2|3",
        "census|2|3|10|4",
        "census|2|3",
        // Options: unknown, short, shortened, of another command, twice, without a value, with one.
        "check|--tets|mult|f",
        "check|-t|mult|f",
        "check|--test|mult|f",
        "check|--js|f",
        "check|-f",
        "check|---json|f",
        "check|--JSON|f",
        "replay|--json|f",
        "replay|--tests|mult|f",
        "table|--json|f",
        "sample|--budget|5|1|2",
        "graph|--tests=mult|f",
        "check|--json|--json|f",
        "check|--tests|mult|--tests|mult|f",
        "check|--tests=mult|--tests|mult|f",
        "check|--budget=1|f|--budget=1",
        "check|f|--tests",
        "check|f|--budget",
        "check|--tests|--json|f",
        "check|--tests|--|f",
        "check|--json=x|f",
        "check|--json=|f",
        "check|--json=true|f",
        // Lists of tests.
        "check|--tests=|f",
        "check|--tests||f",
        "check|--tests|-|f",
        "check|--tests|first|f",
        "check|--tests|mult,mult|f",
        "check|--tests|mult,|f",
        "check|--tests|Mult|f",
        "check|--tests=none,mult|f",
        // Numbers.
        "check|--budget=|f",
        "check|--budget|0|f",
        "check|--budget|100001|f",
        "check|--budget|01|f",
        "check|--budget|+1|f",
        "check|--budget=-1|f",
        "check|--budget|-1|f",
        "check|--budget|1.0|f",
        "check|--budget|4294967297|f",
        "check|--budget|99999999999999999999|f",
        "sample|01|1",
        "sample|1|01",
        "sample|2147483648|1",
        "sample|1|100001",
        "sample|-1|1",
        "sample|--|-1|1",
        "sample||1",
        "census|0|3|10",
        "census|5|3|10",
        "census|2|0|10",
        "census|2|33|10",
        "census|2|3|1",
        "census|2|3|2001",
        "census|02|3|10",
        "census|258|3|10",
    ] {
        let words = words_of(alloc, text)?;
        assert!(rt;
            matches!(read(alloc, words.as_slice()), Err(WordsFault::Usage)),
            "{text}"
        );
    }
    Ok(())
}

#[test]
fn reads_a_long_name(rt: HostRuntime) -> Result<(), Fail> {
    let alloc = rt.alloc();
    let mut name = String::new(alloc);
    for _byte in 0..100_000 {
        name.push('f')?;
    }
    let mut words = words_of(alloc, "graph")?;
    words.push(name)?;
    let is_read = match read(alloc, words.as_slice()) {
        Ok(Command::Graph { file }) => file.as_str().len() == 100_000,
        _ => false,
    };
    assert!(rt; is_read);
    Ok(())
}

#[test]
fn refuses_many_words(rt: HostRuntime) -> Result<(), Fail> {
    let alloc = rt.alloc();
    let mut words = words_of(alloc, "check")?;
    for _word in 0..2_000 {
        words.push("f".to_string(alloc)?)?;
    }
    assert!(rt; matches!(read(alloc, words.as_slice()), Err(WordsFault::Usage)));
    Ok(())
}

#[test]
fn has_one_no_memory_fault(rt: HostRuntime) {
    assert!(rt; WordsFault::from(AllocError) == WordsFault::Memory);
}
