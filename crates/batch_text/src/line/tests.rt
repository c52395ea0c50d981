use super::*;
use std::process::Abort;
use std::test::Fail;

// What a line asks for, or the kind of its fault, as a text.
fn told(alloc: Global, kind: InputKind, line: &[u8]) -> Result<String, Fail> {
    let read = match read_line(alloc, line, 7, kind) {
        Ok(read) => read,
        Err(fault) => return Ok(format!(in alloc; "{:?}", fault.kind)?),
    };
    let text = match &read {
        Line::Skip => format!(in alloc; "nothing")?,
        Line::Put { key, value } => format!(in alloc;
            "put {:?} {:?}",
            key.as_slice(),
            value.as_slice()
        )?,
        Line::Del { key } => format!(in alloc; "del {:?}", key.as_slice())?,
        Line::Commit => format!(in alloc; "commit")?,
        Line::View { place } => format!(in alloc; "view {place:?}")?,
        Line::Take { number } => format!(in alloc; "take {number}")?,
        Line::Close { number } => format!(in alloc; "close {number}")?,
        Line::State { number } => format!(in alloc; "state {number}")?,
        Line::Get { place, key } => format!(in alloc; "get {place:?} {:?}", key.as_slice())?,
        Line::Root { place } => format!(in alloc; "root {place:?}")?,
        Line::Prove { root, key } => format!(in alloc; "prove {root:?} {:?}", key.as_slice())?,
        Line::Point { root, key, proof } => {
            format!(in alloc;
                "point {root:?} {:?} {:?}",
                key.as_slice(),
                proof.as_slice()
            )?
        }
        Line::RangeOf {
            root,
            range,
            pairs,
            bytes,
        } => {
            format!(in alloc;
                "range {root:?} {:?} {:?} {pairs} {bytes}",
                range.start(),
                range.end()
            )?
        }
        Line::ChangesOf {
            from,
            to,
            range,
            pairs,
            bytes,
        } => {
            format!(in alloc;
                "changes {from:?} {to:?} {:?} {:?} {pairs} {bytes}",
                range.start(),
                range.end()
            )?
        }
        Line::VerifyRange { root, range, proof } => {
            format!(in alloc;
                "range {root:?} {:?} {:?} {:?}",
                range.start(),
                range.end(),
                proof.as_slice()
            )?
        }
        Line::VerifyChanges { root, range, proof } => {
            format!(in alloc;
                "changes {root:?} {:?} {:?} {:?}",
                range.start(),
                range.end(),
                proof.as_slice()
            )?
        }
    };
    Ok(text)
}

fn assert_told(
    rt: &impl Abort,
    alloc: Global,
    kind: InputKind,
    rows: &[(&str, &str)],
) -> Result<(), Fail> {
    for (line, want) in rows {
        let text = told(alloc, kind, line.as_bytes())?;
        assert_eq!(rt; text.as_str(), *want, "of {line:?}");
    }
    Ok(())
}

// Lines of a batch, with what is told of them: what they ask for, or the first fault.
const BATCH: [(&str, &str); 33] = [
    ("", "nothing"),
    (" \t ", "nothing"),
    ("#", "nothing"),
    ("# put zz", "nothing"),
    ("put 6b 76", "put [107] [118]"),
    ("\t put \t6B  76 ", "put [107] [118]"),
    ("put - -", "put [] []"),
    ("del 6b7F", "del [107, 127]"),
    (" # a", "Word"),
    ("Put 6b 76", "Word"),
    ("puts 6b 76", "Word"),
    ("zz", "Word"),
    ("put", "Count"),
    ("put zz", "Count"),
    ("put 6b 76 # a", "Count"),
    ("del", "Count"),
    ("del 6b 76", "Count"),
    ("put 6b 7", "Hex"),
    ("put 6g 76", "Hex"),
    ("put 0x6b 76", "Hex"),
    ("put 6b --", "Hex"),
    ("del 6b\r", "Hex"),
    ("del :0", "Hex"),
    ("commit", "Word"),
    ("view db", "Word"),
    ("take 1", "Word"),
    ("close 1", "Word"),
    ("state 1", "Word"),
    ("get db 6b", "Word"),
    ("root db", "Word"),
    ("prove now 6b", "Word"),
    ("range now * * 1 1", "Word"),
    ("point empty - 01", "Word"),
];

// Lines of a script.
const SCRIPT: [(&str, &str); 87] = [
    ("# commit", "nothing"),
    ("put 6b 76", "put [107] [118]"),
    ("del 6b", "del [107]"),
    ("commit", "commit"),
    ("\t commit ", "commit"),
    ("view db", "view Db"),
    ("view 1", "view View(1)"),
    (" view\t0 ", "view View(0)"),
    ("take 1000000", "take 1000000"),
    ("close\t2", "close 2"),
    ("state 18446744073709551615", "state 18446744073709551615"),
    ("get db 6B", "get Db [107]"),
    ("get 9 -", "get View(9) []"),
    ("root db", "root Db"),
    (
        "root 18446744073709551615",
        "root View(18446744073709551615)",
    ),
    (
        "prove 00112233445566778899AAbbCCddEEff00112233445566778899aabbccddeeff 6b",
        "prove Id([0, 17, 34, 51, 68, 85, 102, 119, 136, 153, 170, 187, 204, 221, 238, 255, 0, 17, 34, 51, 68, 85, 102, 119, 136, 153, 170, 187, 204, 221, 238, 255]) [107]",
    ),
    ("prove now 6b", "prove Now [107]"),
    ("prove empty 6b", "prove Empty [107]"),
    ("prove ~0 -", "prove Back(0) []"),
    ("prove ~64 6b", "prove Back(64) [107]"),
    ("range now * * 1 1", "range Now None None 1 1"),
    (
        "changes ~2 now * 0A 10 1000",
        "changes Back(2) Now None Some([10]) 10 1000",
    ),
    (
        "range ~1 0A 0a 4096 2097152",
        "range Back(1) Some([10]) Some([10]) 4096 2097152",
    ),
    ("comit", "Word"),
    ("Commit", "Word"),
    ("commit\r", "Word"),
    ("views db", "Word"),
    ("db", "Word"),
    ("compact", "Word"),
    ("foo zz zz", "Word"),
    ("point empty - 01", "Word"),
    ("put 6b", "Count"),
    ("commit x", "Count"),
    ("view", "Count"),
    ("view db db", "Count"),
    ("take", "Count"),
    ("take 1 2", "Count"),
    ("close x y", "Count"),
    ("state 1 1", "Count"),
    ("get x", "Count"),
    ("get db 6b 76", "Count"),
    ("root", "Count"),
    ("root db 1", "Count"),
    ("range now * * 1", "Count"),
    ("changes now * * 1 1", "Count"),
    ("changes now now * * 1 1 1", "Count"),
    ("range now * * 1 1 1", "Count"),
    ("del 6", "Hex"),
    ("get db 6", "Hex"),
    ("get 1 x", "Hex"),
    (
        "prove 00112233445566778899AAbbCCddEEff00112233445566778899aabbccddeeff 6",
        "Hex",
    ),
    ("range now ** 0 1 1", "Hex"),
    ("range now * 0 1 1", "Hex"),
    ("take x", "Number"),
    ("take db", "Number"),
    ("take -", "Number"),
    ("take -1", "Number"),
    ("take +1", "Number"),
    ("take 00", "Number"),
    ("take 01", "Number"),
    ("close 1f", "Number"),
    ("close 0x1", "Number"),
    ("close 1\r", "Number"),
    ("state 18446744073709551616", "Number"),
    ("state 100000000000000000000", "Number"),
    ("state é", "Number"),
    ("range now 0b 0a 0 1", "Number"),
    ("range now 0b 0a 1 0", "Number"),
    ("range now * * 4097 1", "Number"),
    ("range now * * 1 2097153", "Number"),
    ("range now * * 01 1", "Number"),
    ("view DB", "Place"),
    ("view d", "Place"),
    ("view dbx", "Place"),
    ("root 007", "Place"),
    ("root 18446744073709551616", "Place"),
    ("get x 6", "Place"),
    (
        "prove 00112233445566778899AAbbCCddEEff00112233445566778899aabbccddeef 6b",
        "Root",
    ),
    (
        "prove 00112233445566778899AAbbCCddEEff00112233445566778899aabbccddeefg 6b",
        "Root",
    ),
    (
        "prove 00112233445566778899AAbbCCddEEff00112233445566778899aabbccddeeff00 6b",
        "Root",
    ),
    ("prove ~ 6b", "Root"),
    ("prove ~01 6b", "Root"),
    ("range db 0 0 0 0", "Root"),
    ("changes now db 0 0 0 0", "Root"),
    ("changes now ~1 0b 0a 1 1", "Bounds"),
    ("range now 0b 0a 1 1", "Bounds"),
    ("range now 0a00 0a 1 1", "Bounds"),
];

// Lines of an input of proofs.
const VERIFY: [(&str, &str); 24] = [
    (
        " point\tempty - 01 ",
        "point [0, 0, 0, 0, 0, 0, 0, 0, 0, 0, 0, 0, 0, 0, 0, 0, 0, 0, 0, 0, 0, 0, 0, 0, 0, 0, 0, 0, 0, 0, 0, 0] [] [1]",
    ),
    (
        "point 00112233445566778899AAbbCCddEEff00112233445566778899aabbccddeeff 6B 0104",
        "point [0, 17, 34, 51, 68, 85, 102, 119, 136, 153, 170, 187, 204, 221, 238, 255, 0, 17, 34, 51, 68, 85, 102, 119, 136, 153, 170, 187, 204, 221, 238, 255] [107] [1, 4]",
    ),
    ("# point", "nothing"),
    ("", "nothing"),
    (
        "range empty - * 0101",
        "range [0, 0, 0, 0, 0, 0, 0, 0, 0, 0, 0, 0, 0, 0, 0, 0, 0, 0, 0, 0, 0, 0, 0, 0, 0, 0, 0, 0, 0, 0, 0, 0] Some([]) None [1, 1]",
    ),
    (
        "range empty * 0a -",
        "range [0, 0, 0, 0, 0, 0, 0, 0, 0, 0, 0, 0, 0, 0, 0, 0, 0, 0, 0, 0, 0, 0, 0, 0, 0, 0, 0, 0, 0, 0, 0, 0] None Some([10]) []",
    ),
    (
        "changes empty * 0a 0102",
        "changes [0, 0, 0, 0, 0, 0, 0, 0, 0, 0, 0, 0, 0, 0, 0, 0, 0, 0, 0, 0, 0, 0, 0, 0, 0, 0, 0, 0, 0, 0, 0, 0] None Some([10]) [1, 2]",
    ),
    ("changes empty 0b 0a 0102", "Bounds"),
    ("changes now now * * 1 1", "Count"),
    ("point now 6b 01", "Root"),
    ("point ~0 6b 01", "Root"),
    ("point Empty 6 0", "Root"),
    (
        "point 00112233445566778899AAbbCCddEEff00112233445566778899aabbccddee 6b 0104",
        "Root",
    ),
    ("point empty 6 0", "Hex"),
    ("point empty 6b 0", "Hex"),
    ("point empty 6b", "Count"),
    ("point empty 6b 01 01", "Count"),
    ("put 6b 76", "Word"),
    ("commit", "Word"),
    ("range empty 0b 0a 01", "Bounds"),
    ("range empty 0b 0a 0", "Hex"),
    ("range now * * 01", "Root"),
    ("range empty * *", "Count"),
    ("range empty * * 1 1", "Count"),
];

#[test]
fn a_line_asks_for_what_its_words_say_or_has_its_first_fault(rt: HostRuntime) -> Result<(), Fail> {
    let alloc = rt.alloc();
    assert_told(&rt, alloc, InputKind::Batch, &BATCH)?;
    assert_told(&rt, alloc, InputKind::Script, &SCRIPT)?;
    assert_told(&rt, alloc, InputKind::Verify, &VERIFY)
}

// Digits between what stands before and after them, and the kind that is told of such a line.
#[test]
fn words_and_lines_end_at_their_limits(rt: HostRuntime) -> Result<(), Fail> {
    let alloc = rt.alloc();
    let rows: [(&[u8], usize, &[u8], Option<LineKind>); 17] = [
        (b"del ", 512, b"", None),
        (b"del ", 513, b"", Some(LineKind::Hex)),
        (b"del ", 514, b"", Some(LineKind::LongKey)),
        (b"del ", 513, b"g", Some(LineKind::Hex)),
        (b"put ", 514, b" zz", Some(LineKind::LongKey)),
        (b"put zz ", 524_290, b"", Some(LineKind::Hex)),
        (b"put - ", 524_288, b"", None),
        (b"put - ", 524_290, b"", Some(LineKind::LongValue)),
        (b"put - ", 524_289, b"g", Some(LineKind::Hex)),
        (b"#", 20_000_000, b"", Some(LineKind::TooLong)),
        (b"get db ", 512, b"", None),
        (b"get 1 ", 514, b"", Some(LineKind::LongKey)),
        (b"get 1x ", 514, b"", Some(LineKind::Place)),
        (b"take 1", 20_000_000, b"", Some(LineKind::TooLong)),
        (b"range now * ", 514, b" 1 1", None),
        (b"range now * ", 516, b" 1 1", Some(LineKind::LongKey)),
        (b"range now 01 ", 514, b" 1 1", Some(LineKind::Bounds)),
    ];
    for (before, digits, after, want) in rows {
        let mut line = Vec::from_slice(alloc, before)?;
        line.resize(before.len() + digits, b'0')?;
        line.extend_from_slice(after)?;
        let told = match read_line(alloc, &line, 7, InputKind::Script) {
            Ok(_) => None,
            Err(fault) => Some(fault.kind),
        };
        assert_eq!(rt; told, want, "of {digits} digits behind {before:?}");
    }
    Ok(())
}
