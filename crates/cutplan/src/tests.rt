// Hostile texts with the places of their faults, and texts of the greatest length.
use orders::judge::judge;
use std::alloc::Global;
use std::process::Abort;
use std::test::Fail;

const FAULTS: [(&str, usize, usize); 25] = [
    ("", 1, 1),
    ("\n", 1, 1),
    ("jobs", 1, 4),
    ("job  7", 1, 5),
    ("job 07", 1, 6),
    ("job 00", 1, 6),
    ("job 7\n", 1, 6),
    ("job 12345678", 1, 12),
    ("job 7 200 150 0 0", 1, 18),
    ("job 7 200 150 0 0 ", 1, 18),
    ("job 7 200 150 0 0\r\n", 1, 18),
    ("job 7 200 150 0 0\n\n", 2, 1),
    ("job 7 200 150 0 0\njob", 2, 1),
    ("job 7 200 150 0 0\nitem", 2, 5),
    ("job 7 200 150 0 0\nitem\t1", 2, 5),
    ("job 7 200 150 0 0\nitem 100 50 x", 2, 13),
    ("job 7 200 150 0 0\nitem 100 50 nt", 2, 14),
    ("job 7 200 150 0 0\nitem 100 50 n\n", 2, 14),
    ("job 7 200 150 0 0\nitem 100 50 n 6 4", 2, 18),
    ("job 7 200 150 0 0\nitem 100 50 n 6 4 5", 2, 18),
    ("job 7 200 150 0 0\nitem 100 50 n 6 -4\n", 2, 17),
    ("job 7 200 150 0 0\nitem 100 50 n 6 4\nitem 70", 3, 8),
    ("job 7 200 150 0 0\nitem 100 50 n 6 4\nitem 70 \n", 3, 9),
    ("job 7 200 150 0 0\nitem 100 50 n 6 4\n item", 3, 1),
    ("Job 7 200 150 0 0\n", 1, 1),
];

// The report on a text is `expected`, and is accepted or not.
fn reports(
    rt: &impl Abort,
    heap: Global,
    text: &[u8],
    expected: &str,
    accepted: bool,
) -> Result<(), Fail> {
    let report = judge(heap, text)?;
    assert_eq!(rt; report.printed.as_str(), expected);
    assert_eq!(rt; report.accepted, accepted);
    Ok(())
}

#[test]
fn faults_have_their_places(rt: HostRuntime) -> Result<(), Fail> {
    for (text, line, column) in FAULTS {
        let expected = format!(in rt.alloc(); "bad 7 line {line} column {column}\n")?;
        reports(&rt, rt.alloc(), text.as_bytes(), expected.as_str(), false)?;
    }
    Ok(())
}

#[test]
fn lawful_texts_are_restated(rt: HostRuntime) -> Result<(), Fail> {
    reports(
        &rt,
        rt.alloc(),
        b"job 0 0 0 0 0\n",
        "order 0 plate 0 0 saw 0 trim 0 lines 0 pieces 0\n",
        true,
    )?;
    let text = b"job 9999999 1 2 3 4\nitem 1 2 t 3 9999999\nitem 0 0 n 0 0\nitem 5 5 t 5 9999999\n";
    reports(
        &rt,
        rt.alloc(),
        text,
        "order 9999999 plate 1 2 saw 3 trim 4 lines 3 pieces 19999998\n",
        true,
    )
}

// Bytes that no text has: 0, 9 and 255.
#[test]
fn strange_bytes(rt: HostRuntime) -> Result<(), Fail> {
    reports(&rt, rt.alloc(), &[0], "bad 7 line 1 column 1\n", false)?;
    reports(
        &rt,
        rt.alloc(),
        &[b'j', b'o', b'b', 9],
        "bad 7 line 1 column 4\n",
        false,
    )?;
    reports(
        &rt,
        rt.alloc(),
        &[b'j', b'o', b'b', b' ', 255],
        "bad 7 line 1 column 5\n",
        false,
    )
}

// `text` and then as many item lines.
fn with_items(text: &mut Vec<u8>, items: usize) -> Result<(), Fail> {
    for _ in 0..items {
        text.extend_from_slice(b"item 100 50 n 6 4\n")?;
    }
    Ok(())
}

// A lawful text of 65,536 bytes, and the same with one byte more, which no text may have; one that ends early at 65,536 bytes; and a longer one with
// an earlier fault.
#[test]
fn the_greatest_length(rt: HostRuntime) -> Result<(), Fail> {
    let mut text = b"job 7 200 150 0 0\n".to_vec(rt.alloc())?;
    with_items(&mut text, 3638)?;
    text.extend_from_slice(b"item 1111111 1111111 n 1111111 11\n")?;
    assert_eq!(rt; text.len(), 65_536);
    reports(
        &rt,
        rt.alloc(),
        text.as_slice(),
        "order 7 plate 200 150 saw 0 trim 0 lines 3639 pieces 14563\n",
        true,
    )?;
    text.push(b'i')?;
    reports(
        &rt,
        rt.alloc(),
        text.as_slice(),
        "bad 7 line 3641 column 1\n",
        false,
    )?;
    let mut early = b"job 7 200 150 0 0\n".to_vec(rt.alloc())?;
    with_items(&mut early, 3639)?;
    early.extend_from_slice(b"item 1111111 111")?;
    assert_eq!(rt; early.len(), 65_536);
    reports(
        &rt,
        rt.alloc(),
        early.as_slice(),
        "bad 7 line 3641 column 17\n",
        false,
    )?;
    let mut faulty = b"job 7 200 150 0 0\nitem x\n".to_vec(rt.alloc())?;
    with_items(&mut faulty, 4000)?;
    reports(
        &rt,
        rt.alloc(),
        faulty.as_slice(),
        "bad 7 line 2 column 6\n",
        false,
    )
}
