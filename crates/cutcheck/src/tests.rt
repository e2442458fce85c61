// Plates with their verdicts, refused plates, and texts that are none.
use plates::check::check_plate;
use std::alloc::Global;
use std::process::Abort;
use std::test::Fail;

const VERDICTS: [(&str, &str); 14] = [
    ("plate 200 150 0 1\n", "verdict 0 row 0\n"),
    // narrow waste at the end, at the beginning, and a gap that has no room for the saw
    (
        "plate 205 50 3 1\nkind 100 50 n\n0 n 0 0 k 0 0\n0 n 0 0 k 103 0\n",
        "verdict 0 row 0\n",
    ),
    (
        "plate 105 50 3 1\nkind 100 50 n\n0 n 0 0 k 2 0\n",
        "verdict 0 row 0\n",
    ),
    (
        "plate 205 50 3 7\nkind 100 50 n\n0 n 0 0 k 0 0\n0 n 0 0 k 102 0\n",
        "verdict 22 row 0\n",
    ),
    // two pieces side by side need their own stages; spare pieces count, segments and strips do not
    (
        "plate 100 100 0 1\nkind 50 50 n\n0 n 0 0 k 0 0\n0 n 0 0 k 50 50\n",
        "verdict 22 row 0\n",
    ),
    (
        "plate 100 100 0 2\nkind 50 50 n\n0 n 9999999 9999999 s 0 0\n0 n 0 0 k 50 50\n",
        "verdict 0 row 0\n",
    ),
    (
        "plate 100 100 0 7\nkind 50 50 n\n0 n 0 0 k 0 0\n0 n 0 0 s 0 0\n",
        "verdict 22 row 0\n",
    ),
    // the first row at fault: turned, outside by one, unknown, too large for its field
    (
        "plate 100 100 0 7\nkind 50 60 n\n0 n 0 0 k 0 0\n0 t 0 0 k 0 0\n5 n 0 0 k 0 0\n",
        "verdict 21 row 1\n",
    ),
    (
        "plate 100 100 0 7\nkind 50 50 t\n0 n 0 0 k 50 50\n0 n 0 0 k 51 0\n",
        "verdict 21 row 1\n",
    ),
    (
        "plate 100 100 0 7\nkind 50 50 t\n1 n 0 0 k 0 0\n",
        "verdict 21 row 0\n",
    ),
    (
        "plate 100 100 0 7\nkind 50 50 t\n256 n 0 0 k 0 0\n",
        "verdict 21 row 0\n",
    ),
    (
        "plate 100 100 0 7\nkind 50 50 t\n0 n 0 0 k 65536 0\n",
        "verdict 21 row 0\n",
    ),
    (
        "plate 100 100 0 7\nkind 50 50 t\n0 n 0 0 k 0 9999999\n",
        "verdict 21 row 0\n",
    ),
    (
        "plate 3000 3000 20 7\nkind 3000 3000 n\n0 n 0 0 k 0 0\n",
        "verdict 0 row 0\n",
    ),
];

const NO_VERDICTS: [(&str, &str); 16] = [
    ("plate 49 100 21 8\n", "refused 1\n"),
    ("plate 100 3001 0 1\n", "refused 1\n"),
    ("plate 65636 100 0 1\n", "refused 1\n"),
    ("plate 100 100 0 1\nkind 50 65586 n\n", "refused 1\n"),
    ("plate 100 100 21 1\n", "refused 6\n"),
    ("plate 100 100 256 1\n", "refused 6\n"),
    ("plate 100 100 0 0\n", "refused 6\n"),
    ("plate 100 100 0 257\n", "refused 6\n"),
    ("", "bad 7 line 1 column 0\n"),
    ("plate 100 100 0 07\n", "bad 7 line 1 column 0\n"),
    ("plate 100 100 0 1", "bad 7 line 1 column 0\n"),
    ("plate 10 100 0 1\nkind 50 50\n", "bad 7 line 2 column 0\n"),
    ("plate 10 100 0 1\n\n", "bad 7 line 2 column 0\n"),
    (
        "plate 10 100 0 1\nkind 50 50 n\n0 n 0 0 x 0 0\n",
        "bad 7 line 3 column 0\n",
    ),
    (
        "plate 10 100 0 1\n0 n 0 0 k 0 0\nkind 50 50 n\n",
        "bad 7 line 3 column 0\n",
    ),
    (
        "plate 10 100 0 1\nkind 50 50 n\nkind 50 50 t\n0 n 0 0 k 0 0\n0 n 0 0 k 0 12345678\n",
        "bad 7 line 5 column 0\n",
    ),
];

// The report on a text is `expected`, with a verdict or without.
fn reports(
    rt: &impl Abort,
    heap: Global,
    text: &str,
    expected: &str,
    accepted: bool,
) -> Result<(), Fail> {
    let report = check_plate(heap, text.as_bytes())?;
    assert_eq!(rt; report.printed.as_str(), expected);
    assert_eq!(rt; report.accepted, accepted);
    Ok(())
}

#[test]
fn plates_have_their_verdicts(rt: HostRuntime) -> Result<(), Fail> {
    for (text, expected) in VERDICTS {
        reports(&rt, rt.alloc(), text, expected, true)?;
    }
    Ok(())
}

#[test]
fn others_have_none(rt: HostRuntime) -> Result<(), Fail> {
    for (text, expected) in NO_VERDICTS {
        reports(&rt, rt.alloc(), text, expected, false)?;
    }
    Ok(())
}

#[test]
fn the_pinwheel_stays_whole(rt: HostRuntime) -> Result<(), Fail> {
    for stages in 1..8 {
        let wheel =
            "kind 100 50 t\nkind 50 50 n\n0 n 0 0 k 0 0\n0 t 0 0 k 100 0\n0 n 0 0 k 50 100\n0 t 0 0 k 0 50\n1 n 0 0 k 50 50\n";
        let text = format!(in rt.alloc(); "plate 150 150 0 {stages}\n{wheel}")?;
        reports(&rt, rt.alloc(), text.as_str(), "verdict 22 row 0\n", true)?;
    }
    Ok(())
}

// `rows` squares of 50 by 50, side by side on a plate of 3,000 by 3,000 and then again from the corner, as a text at `stages` stages.
fn squares(heap: Global, rows: usize, stages: usize) -> Result<String, Fail> {
    let mut text = format!(in heap; "plate 3000 3000 0 {stages}\nkind 50 50 n\n")?;
    for i in 0..rows {
        let x = i % 60 * 50;
        let y = i / 60 % 60 * 50;
        write!(text, "0 n 0 0 k {x} {y}\n")?;
    }
    Ok(text)
}

#[test]
fn many_squares(rt: HostRuntime) -> Result<(), Fail> {
    let grid = squares(rt.alloc(), 3600, 2)?;
    reports(&rt, rt.alloc(), grid.as_str(), "verdict 0 row 0\n", true)?;
    let overlapping = squares(rt.alloc(), 4096, 7)?;
    reports(
        &rt,
        rt.alloc(),
        overlapping.as_str(),
        "verdict 22 row 0\n",
        true,
    )?;
    let too_many = squares(rt.alloc(), 4097, 7)?;
    reports(&rt, rt.alloc(), too_many.as_str(), "refused 5\n", false)
}
