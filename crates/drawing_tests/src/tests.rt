// Drawings that are read, refusals with their words, and rows that come back from their drawings.
use clockworks::write::Unfit;
use drawing::{draw, read};
use std::alloc::{AllocError, Global};
use std::process::Abort;
use std::test::Fail;

const BELL: &str =
    "# The bell\nclocks x\nposition waiting: x <= 3\nposition struck\nstep waiting -> struck when x > 2 reset x\n";

const BELL_ROW: [u32; 15] = [1, 2, 1, 0, 0, 3, 0, 0, 1, 1, 0, 3, 2, 1, 0];

// Steps before what they name, signs without blanks, `=`, commas, CRLF, and a name that ends in `-`.
const DENSE: &str =
    "step a-->b when x=2,y>1 reset x,y#done\r\nposition a-\r\n\r\nposition b:x<=0003,y<4\r\nclocks x y\r\nstep b->a- when x>=1 reset y x";

const DENSE_ROW: [u32; 34] = [
    2, 2, 0, 2, 0, 0, 3, 1, 1, 4, 0, 1, 3, 0, 0, 2, 0, 2, 2, 1, 3, 1, 2, 0, 1, 1, 0, 1, 0, 2, 1, 2,
    1, 0,
];

// A text, and what its refusal says.
const REFUSED: [(&str, &str); 23] = [
    (
        "",
        "1:1: found the end of the text, expected a line `clocks` with a name for each clock",
    ),
    (
        "clocks x\nposition a: z < 1",
        "2:13: found `z`, expected a clock that a line `clocks` names",
    ),
    (
        "clocks x x",
        "1:10: found `x`, expected a name that no clock has yet",
    ),
    (
        "clocks x\nposition a\nstep a -> b",
        "3:11: found `b`, expected a position that a line `position` names",
    ),
    (
        "clocks x\nposition a\nstep a ->",
        "3:10: found the end of the line, expected a position that a line `position` names",
    ),
    (
        "clocks x\nposition a: x >= 1",
        "2:15: found `>=`, expected `<=` or `<`, since a position bounds clocks only from above",
    ),
    (
        "clocks x\nposition a: x < 10001",
        "2:17: found `10001`, expected a whole number from 0 to 10000",
    ),
    (
        "clocks a b c d e f g h i",
        "1:24: found `i`, expected at most 8 clocks",
    ),
    (
        "clocks when",
        "1:8: found `when`, expected a name for a clock",
    ),
    (
        "# é\nclocks é ≤",
        "2:10: found the character '≤', expected a name, a number or one of : , -> <= < >= > = #",
    ),
    (
        "≤",
        "1:1: found the character '≤', expected a name, a number or one of : , -> <= < >= > = #",
    ),
    (
        "clocks x²\nposition a",
        "1:9: found the character '²', expected a name, a number or one of : , -> <= < >= > = #",
    ),
    (
        "clock x",
        "1:1: found `clock`, expected `clocks`, `position` or `step`",
    ),
    (
        "clocks x",
        "1:9: found the end of the text, expected a line `position` for each position",
    ),
    (
        "clocks x\nposition 1",
        "2:10: found `1`, expected a name for a position",
    ),
    (
        "clocks x\nposition step",
        "2:10: found `step`, expected a name for a position",
    ),
    (
        "clocks x\nposition a\nposition a",
        "3:10: found `a`, expected a name that no position has yet",
    ),
    (
        "clocks x\nposition a b",
        "2:12: found `b`, expected `:` or the end of the line",
    ),
    (
        "clocks x\nposition a: x < 1 x",
        "2:19: found `x`, expected `,` or the end of the line",
    ),
    (
        "clocks x\nposition a\nstep a a",
        "3:8: found `a`, expected `->`",
    ),
    (
        "clocks x\nposition a\nstep a -> a x",
        "3:13: found `x`, expected `when`, `reset` or the end of the line",
    ),
    (
        "clocks x\nposition a\nstep a -> a when x 1",
        "3:20: found `1`, expected `<=`, `<`, `>=`, `>` or `=`",
    ),
    (
        "clocks x\nposition a\nstep a -> a when x < 1 x",
        "3:24: found `x`, expected `,`, `reset` or the end of the line",
    ),
];

// Texts that have one row each with a plainer one: tabs, a byte order mark, and a name that begins with `_`.
const SAME: [(&str, &str); 3] = [
    (
        "clocks\tx\n\tposition\ta:\tx <\t1",
        "clocks x\nposition a: x < 1",
    ),
    ("\u{feff}clocks x\nposition a", "clocks x\nposition a"),
    (
        "clocks _x\nposition _: _x < 1",
        "clocks x\nposition a: x < 1",
    ),
];

fn says(rt: &impl Abort, heap: Global, text: &str, message: &str) -> Result<(), Fail> {
    says_of_bytes(rt, heap, text.as_bytes(), message)
}

fn says_of_bytes(rt: &impl Abort, heap: Global, bytes: &[u8], message: &str) -> Result<(), Fail> {
    match read(heap, bytes) {
        Ok(_) => Err(Fail::new("it was read")),
        Err(refusal) => {
            assert!(rt; refusal.to_string(heap)?.as_str() == message, "{}", message);
            Ok(())
        },
    }
}

fn comes_back(rt: &impl Abort, heap: Global, row: &[u32]) -> Result<(), Fail> {
    let text = draw(heap, row)?;
    let drawing = read(heap, text.as_bytes())?;
    assert!(rt; drawing.row.as_slice() == row);
    Ok(())
}

#[test]
fn reads_drawings(rt: HostRuntime) -> Result<(), Fail> {
    let bell = read(rt.alloc(), BELL.as_bytes())?;
    assert!(rt; bell.row.as_slice() == BELL_ROW.as_slice());
    let dense = read(rt.alloc(), DENSE.as_bytes())?;
    assert!(rt; dense.row.as_slice() == DENSE_ROW.as_slice());
    Ok(())
}

#[test]
fn reads_the_same(rt: HostRuntime) -> Result<(), Fail> {
    for (text, plain) in SAME {
        let drawing = read(rt.alloc(), text.as_bytes())?;
        let other = read(rt.alloc(), plain.as_bytes())?;
        assert!(rt; drawing.row.as_slice() == other.row.as_slice(), "{}", text);
    }
    Ok(())
}

#[test]
fn refuses_bytes(rt: HostRuntime) -> Result<(), Fail> {
    says_of_bytes(
        &rt,
        rt.alloc(),
        b"clocks x\nposition \xff",
        "2:10: found bytes that are not text, expected text in UTF-8",
    )
}

// The row of as many positions as there may be.
fn most_positions(heap: Global) -> Result<Vec<u32>, Fail> {
    let mut row = Vec::new(heap);
    row.push(1)?;
    row.push(256)?;
    for _ in 0..256 {
        row.push(0)?;
    }
    Ok(row)
}

#[test]
fn reads_the_most_positions(rt: HostRuntime) -> Result<(), Fail> {
    let heap = rt.alloc();
    let row = most_positions(heap)?;
    comes_back(&rt, heap, row.as_slice())?;
    let text = draw(heap, row.as_slice())?;
    let text = repeat(heap, text.as_str(), "position q", 1, "")?;
    says(
        &rt,
        heap,
        text.as_str(),
        "258:10: found `q`, expected at most 256 positions",
    )
}

#[test]
fn refuses_texts(rt: HostRuntime) -> Result<(), Fail> {
    for (text, message) in REFUSED {
        says(&rt, rt.alloc(), text, message)?;
    }
    Ok(())
}

// A text of a front, so many times a part, and an end.
fn repeat(
    heap: Global,
    front: &str,
    part: &str,
    count: usize,
    end: &str,
) -> Result<String, AllocError> {
    let parts = part.repeat(heap, count)?;
    format!(in heap; "{front}{parts}{end}")
}

// A step that sets a clock back so many times: its row has 7 numbers more.
fn resets(heap: Global, count: usize) -> Result<String, AllocError> {
    repeat(
        heap,
        "clocks x\nposition a\nstep a -> a reset",
        " x",
        count,
        "\n",
    )
}

#[test]
fn reads_the_largest_row(rt: HostRuntime) -> Result<(), Fail> {
    let heap = rt.alloc();
    let drawing = read(heap, resets(heap, 16_377)?.as_bytes())?;
    assert_eq!(rt; drawing.row.len(), 16_384);
    says(
        &rt,
        heap,
        resets(heap, 16_378)?.as_str(),
        "4:1: found more than 16384 numbers, expected a clockwork that a row can hold",
    )
}

// The place is the end of the text. Another mistake is told first, wherever it stands.
#[test]
fn refuses_larger_rows(rt: HostRuntime) -> Result<(), Fail> {
    let heap = rt.alloc();
    let steps = repeat(heap, "clocks x\nposition a\n", "step a->a\n", 4_095, "")?;
    assert_eq!(rt; read(heap, steps.as_bytes())?.row.len(), 16_383);
    let steps = repeat(heap, steps.as_str(), "step a->a\n", 20_000, "step")?;
    says(
        &rt,
        heap,
        steps.as_str(),
        "24098:5: found the end of the line, expected a position that a line `position` names",
    )?;
    says(
        &rt,
        heap,
        repeat(heap, "position a\n", "step a->a\n", 4_096, "")?.as_str(),
        "4098:1: found the end of the text, expected a line `clocks` with a name for each clock",
    )?;
    let tests = repeat(heap, "clocks x\nposition a: x<1", ",x<1", 5_459, "")?;
    assert_eq!(rt; read(heap, tests.as_bytes())?.row.len(), 16_383);
    let tests = repeat(heap, tests.as_str(), ",x<1", 1, "")?;
    says(
        &rt,
        heap,
        tests.as_str(),
        "2:21856: found more than 16384 numbers, expected a clockwork that a row can hold",
    )?;
    let tests = repeat(
        heap,
        "clocks x\nposition a\nstep a->a when x<1",
        ",x=1",
        2_729,
        "",
    )?;
    assert_eq!(rt; read(heap, tests.as_bytes())?.row.len(), 16_384);
    let tests = repeat(heap, tests.as_str(), ",x=1", 60_000, "")?;
    says(
        &rt,
        heap,
        tests.as_str(),
        "3:250935: found more than 16384 numbers, expected a clockwork that a row can hold",
    )
}

#[test]
fn refuses_long_lines(rt: HostRuntime) -> Result<(), Fail> {
    let heap = rt.alloc();
    says(
        &rt,
        heap,
        repeat(heap, "", ",", 100_000, "")?.as_str(),
        "1:1: found `,`, expected `clocks`, `position` or `step`",
    )?;
    says(
        &rt,
        heap,
        repeat(
            heap,
            "clocks x\nposition a\nstep a->a reset x",
            ",x",
            100_000,
            "",
        )?
        .as_str(),
        "3:200018: found more than 16384 numbers, expected a clockwork that a row can hold",
    )
}

#[test]
fn rows_come_back(rt: HostRuntime) -> Result<(), Fail> {
    comes_back(&rt, rt.alloc(), &BELL_ROW)?;
    comes_back(&rt, rt.alloc(), &DENSE_ROW)?;
    comes_back(&rt, rt.alloc(), &[8, 1, 0, 0, 0, 0, 3, 7, 7, 0])?;
    comes_back(&rt, rt.alloc(), &[1, 1, 1, 0, 0, 10_000])?;
    assert_eq!(rt;
        draw(rt.alloc(), &[1, 1, 0, 0, 1, 0, 0]).err(),
        Some(Unfit::Position)
    );
    assert_eq!(rt;
        draw(rt.alloc(), &[1, 1, 1, 0, 2, 3]).err(),
        Some(Unfit::Lower)
    );
    assert_eq!(rt; draw(rt.alloc(), &[1, 1, 0, 0]).err(), Some(Unfit::Short));
    Ok(())
}
