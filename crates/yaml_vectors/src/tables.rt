//! Every table of rows. A test is proved and paid for, a row is not, so one goes over all tables.
use crate::rows::{Pair, Row, answers, fronts_answer, is_pair};
use crate::{mappings, sequences, worked};
use std::test::Fail;

#[test]
fn inputs_have_their_answers(rt: HostRuntime) -> Result<(), Fail> {
    let tables: [&[Row]; 20] = [
        &sequences::READ_1,
        &sequences::READ_2,
        &sequences::READ_3,
        &sequences::REFUSED_1,
        &sequences::REFUSED_2,
        &sequences::REFUSED_3,
        &sequences::REFUSED_4,
        &sequences::REFUSED_5,
        &mappings::READ_1,
        &mappings::READ_2,
        &mappings::READ_3,
        &mappings::REFUSED_1,
        &mappings::REFUSED_2,
        &mappings::KEYS,
        &worked::FIRST_1,
        &worked::FIRST_2,
        &worked::SECOND_1,
        &worked::SECOND_2,
        &worked::REFUSED_1,
        &worked::REFUSED_2,
    ];
    for table in &tables {
        for row in *table {
            answers(&rt, row.shows, row.input, row.answer)?;
            fronts_answer(&rt, row.input)?;
        }
    }
    Ok(())
}

#[test]
fn pairs_are_the_same_or_not(rt: HostRuntime) -> Result<(), Fail> {
    let tables: [&[Pair]; 3] = [&sequences::PAIRS, &mappings::PAIRS, &mappings::KEY_PAIRS];
    for table in &tables {
        for pair in *table {
            is_pair(&rt, pair)?;
        }
    }
    Ok(())
}
