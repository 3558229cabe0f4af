// Blocks of AS numbers and their counts.
use crate::checks::same;
use rpki_as::block::AsBlock;
use rpki_as::range::AsRange;
use std::str::FromStr;

const COUNTS: [(&str, u64); 4] = [
    ("AS7-AS7", 1),
    ("AS+5", 1),
    ("as0", 1),
    ("0-4294967295", 4294967296),
];

fn count_of(text: &str) -> Option<u64> {
    match AsBlock::from_str(text) {
        Ok(block) => Some(block.asn_count()),
        Err(_) => None,
    }
}

#[test]
fn counts_of_blocks(rt: HostRuntime) {
    for (text, count) in &COUNTS {
        same(&rt, count_of(text), Some(*count));
    }
    same(&rt, AsRange::all().asn_count(), 4294967296);
}
