//! Loads, by the whole program.
use super::runs::Given;
use std::test::Fail;

/// What is told of the load of 7, whatever the schedule.
const OF_SEVEN: &str = "LOAD 7\n\
    CALLS A 752\n\
    CALLS B 752\n\
    CALLS C 752\n\
    CALLS D 752\n\
    TESTS 1000\n\
    ENTRIES 3008\n\
    REFUSED 0\n\
    END\n";

// A run by these words with no script.
fn without_script(words: &str) -> Given<'_> {
    Given {
        words,
        policy: "",
        lines: "",
    }
}

#[test]
fn the_load_of_seven(rt: HostRuntime) -> Result<(), Fail> {
    let ran = without_script("load 7").ran(&rt, rt.alloc(), &[])?;
    assert!(rt; ran.tells("", OF_SEVEN) && ran.gated == 4_004);
    Ok(())
}

/// What is told of words that the program doesn't have.
pub(super) const USAGE: &str = "USAGE plexrun serial or threads or load N or locks or check\n";

// Numbers are those of scripts: without zeros in front, and of 32 bits.
#[test]
fn words_of_no_load(rt: HostRuntime) -> Result<(), Fail> {
    for words in ["load 07", "load", "load 4294967296"] {
        let told = without_script(words).ends(&rt, rt.alloc(), 2, USAGE)?;
        assert!(rt; told, "{words}");
    }
    Ok(())
}
