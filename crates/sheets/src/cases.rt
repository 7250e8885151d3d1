// A case is a sheet, NAME.sheet, with the replies that are expected to it beside it, NAME.replies.
use replay::replaying::replay;
use std::{fs, io};

// Each case of the data folder.
pub(crate) const NAMES: [&str; 37] = [
    "calls/every_letter_on_maps",
    "calls/every_letter_on_traces",
    "calls/turns_stop_at_ends_and_refusals",
    "calls/refused_and_further_new_stores",
    "calls/makes_interleaved_with_sweep_and_make",
    "calls/make_beside_a_held_lock",
    "worths/each_code_of_maps",
    "worths/greatest_of_traces",
    "refusals/each_number_on_maps",
    "refusals/each_number_on_traces",
    "refusals/two_faults_at_once",
    "refusals/values_that_would_wrap",
    "lines/fields_at_their_edges",
    "lines/bytes_outside_the_syntax",
    "lines/last_line_with_its_end",
    "lines/last_line_a_space_without_its_end",
    "lines/last_line_without_its_end",
    "names_line/empty_sheet",
    "names_line/maps_alone",
    "names_line/traces_alone",
    "names_line/without_its_end",
    "names_line/before_a_carriage_return",
    "names_line/before_a_space",
    "names_line/behind_a_space",
    "names_line/behind_an_empty_line",
    "names_line/behind_a_byte_order_mark",
    "names_line/in_capitals",
    "names_line/with_two_spaces",
    "names_line/names_of_both_kinds",
    "names_line/one_name_too_many",
    "names_line/one_name_too_few",
    "names_line/missing",
    "sizes/bytes_60000_read",
    "sizes/bytes_60001_refused",
    "examples/ranges",
    "examples/interrupted",
    "examples/trace",
];

// Replays the case's sheet, and prints whether the replies are the expected ones.
pub(crate) fn report(rt: &HostRuntime, name: &str) -> io::Result<()> {
    let heap = rt.alloc();
    let sheet = fs::read(rt, format!(in heap; "{name}.sheet")?)?;
    let expected = fs::read_to_string(rt, format!(in heap; "{name}.replies")?)?;
    let given = replay(heap, &sheet)?;
    if given == expected {
        println!(rt; "{name}: as expected")
    } else {
        report_difference(rt, name, expected.as_str(), given.as_str())
    }
}

// Prints the first line at which two texts differ, as either has it. Lines are counted from 1, the line of names among
// them. Behind a text's last byte 10 there is still an empty line, so that a missing byte 10 is a difference too.
fn report_difference(rt: &HostRuntime, name: &str, expected: &str, given: &str) -> io::Result<()> {
    let mut expected_lines = expected.split('\n');
    let mut given_lines = given.split('\n');
    for number in 1..u64::MAX {
        let (expected_line, given_line) = (expected_lines.next(), given_lines.next());
        if expected_line != given_line {
            println!(rt; "{name}: differs at line {number}")?;
            println!(rt; "  expected: {}", expected_line.unwrap_or("no line"))?;
            return println!(rt; "  given: {}", given_line.unwrap_or("no line"));
        }
    }
    Ok(())
}
