//! What a report shows.
use std::alloc::{AllocError, Global};

/// How many entries the histories of a report have.
pub(super) fn entries(report: &str) -> usize {
    report.lines().filter(|line| line.contains(" -> ")).count()
}

// The numbers of the calls to the cache in the transcript with this heading, up to the first item
// that is none.
fn call_numbers(alloc: Global, report: &str, heading: &str) -> Result<Vec<u32>, AllocError> {
    let mut numbers = Vec::new(alloc);
    for item in report.lines().skip_while(|line| *line != heading).skip(1) {
        let Some((_, number)) = item.split_once(' ').filter(|(on, _)| *on == "GBP") else {
            break;
        };
        let Ok(number) = number.parse() else {
            break;
        };
        numbers.push(number)?;
    }
    Ok(numbers)
}

/// Whether the transcript of a connector has so many calls of the cache, with rising numbers.
pub(super) fn rises(
    alloc: Global,
    report: &str,
    connector: &str,
    calls: usize,
) -> Result<bool, AllocError> {
    let heading = format!(in alloc; "TRANSCRIPT {connector} {calls}")?;
    let numbers = call_numbers(alloc, report, &heading)?;
    Ok(numbers.len() == calls && numbers.is_sorted_by(|one, next| one < next))
}
