// A line of each form.
use crate::{Kind, Line, Listed, Making, WrittenRule, read};
use std::alloc::Global;

// A line with one number or none: its word, and that number.
fn short(alloc: Global, text: &[u8]) -> Option<(&'static [u8], u8)> {
    match read(alloc, text).ok()? {
        Line::Join(of) => Some((b"join", of)),
        Line::Leave(of) => Some((b"leave", of)),
        Line::Line(of) => Some((b"line", of)),
        Line::Post => Some((b"post", 0)),
        Line::Withdraw => Some((b"withdraw", 0)),
        Line::End => Some((b"end", 0)),
        _ => None,
    }
}

// A line with four counts: its word, a number before them or 0, and the counts.
fn counts(alloc: Global, text: &[u8]) -> Option<(&'static [u8], usize, [u8; 4])> {
    match read(alloc, text).ok()? {
        Line::Compose(counts) => Some((b"compose", 0, counts)),
        Line::Ask {
            kind: Kind::Listed,
            of,
        } => Some((b"listed", 0, of)),
        Line::Ask {
            kind: Kind::Head,
            of,
        } => Some((b"head", 0, of)),
        Line::Ask {
            kind: Kind::Peak,
            of,
        } => Some((b"peak", 0, of)),
        Line::Ask {
            kind: Kind::Check,
            of,
        } => Some((b"check", 0, of)),
        Line::Cost { rule, of } => Some((b"cost", rule, of)),
        _ => None,
    }
}

fn period(alloc: Global, text: &[u8]) -> Option<(usize, Vec<u32>)> {
    match read(alloc, text).ok()? {
        Line::Period { number, words } => Some((number, words)),
        _ => None,
    }
}

fn draft(alloc: Global, text: &[u8]) -> Option<(usize, Vec<i64>)> {
    match read(alloc, text).ok()? {
        Line::Draft { rule, table } => Some((rule, table)),
        _ => None,
    }
}

fn rule(alloc: Global, text: &[u8]) -> Option<(usize, WrittenRule)> {
    match read(alloc, text).ok()? {
        Line::Rule { number, rule } => Some((number, rule)),
        _ => None,
    }
}

fn making(alloc: Global, text: &[u8]) -> Option<Making> {
    match read(alloc, text).ok()? {
        Line::Make(making) => Some(making),
        _ => None,
    }
}

// The words of a period that is made, and the price behind them, or 0 for a check.
fn made(alloc: Global, text: &[u8]) -> Option<(&'static [u8], Vec<u32>, i64)> {
    match making(alloc, text)? {
        Making::Peak { words, price } => Some((b"peak", words, price)),
        Making::Check { words } => Some((b"check", words, 0)),
        _ => None,
    }
}

fn made_listed(alloc: Global, text: &[u8]) -> Option<Listed> {
    match making(alloc, text)? {
        Making::Listed(listed) => Some(listed),
        _ => None,
    }
}

fn made_head(alloc: Global, text: &[u8]) -> Option<[i32; 4]> {
    match making(alloc, text)? {
        Making::Head(fees) => Some(fees),
        _ => None,
    }
}

fn is_listed(listed: &Listed, largest: [u8; 4], table: &[i32]) -> bool {
    listed.largest == largest && listed.table.as_slice() == table
}

// Whether a list begins whose name is no text.
fn begins(alloc: Global, text: &[u8]) -> bool {
    match read(alloc, text) {
        Ok(Line::List { name, last }) => name == b"\xff-".as_slice() && last == 500,
        _ => false,
    }
}

#[test]
fn short_lines(rt: HostRuntime) {
    let alloc = rt.alloc();
    assert!(rt; short(alloc, b"join 1") == Some((b"join", 1)));
    assert!(rt; short(alloc, b"leave 0") == Some((b"leave", 0)));
    assert!(rt; short(alloc, b"line 255") == Some((b"line", 255)));
    assert!(rt; short(alloc, b"post") == Some((b"post", 0)));
    assert!(rt; short(alloc, b"withdraw") == Some((b"withdraw", 0)));
    assert!(rt; short(alloc, b"end") == Some((b"end", 0)));
    assert!(rt; begins(alloc, b"list \xff- 500"));
}

#[test]
fn lines_with_four_counts(rt: HostRuntime) {
    let alloc = rt.alloc();
    assert!(rt; counts(alloc, b"compose 1 2 3 4") == Some((b"compose", 0, [1, 2, 3, 4])));
    assert!(rt; counts(alloc, b"ask listed 0 0 0 0") == Some((b"listed", 0, [0, 0, 0, 0])));
    assert!(rt; counts(alloc, b"ask head 1 0 0 0") == Some((b"head", 0, [1, 0, 0, 0])));
    assert!(rt; counts(alloc, b"ask peak 0 0 0 255") == Some((b"peak", 0, [0, 0, 0, 255])));
    assert!(rt; counts(alloc, b"ask check 4 3 2 1") == Some((b"check", 0, [4, 3, 2, 1])));
    assert!(rt; counts(alloc, b"cost 9 4 3 2 1") == Some((b"cost", 9, [4, 3, 2, 1])));
}

#[test]
fn periods_and_drafts(rt: HostRuntime) {
    let alloc = rt.alloc();
    assert!(rt;
        matches!(period(alloc, b"period 7 3 0 4294967295 5"), Some((7, words)) if words.as_slice() == [0, u32::MAX, 5].as_slice())
    );
    assert!(rt;
        matches!(draft(alloc, b"draft 18446744073709551615 2 -9223372036854775808 9223372036854775807"), Some((usize::MAX, table)) if table.as_slice() == [i64::MIN, i64::MAX].as_slice())
    );
    assert!(rt; matches!(draft(alloc, b"draft 0 0"), Some((0, table)) if table.is_empty()));
}

#[test]
fn rules(rt: HostRuntime) {
    let alloc = rt.alloc();
    assert!(rt;
        matches!(rule(alloc, b"rule 0 listed 1 0 2 255 2 0 -2147483648"), Some((0, WrittenRule::Listed(listed))) if is_listed(&listed, [1, 0, 2, 255], &[0, i32::MIN]))
    );
    assert!(rt;
        matches!(rule(alloc, b"rule 1 head 1 -2 3 0"), Some((1, WrittenRule::Head(fees))) if fees == [1, -2, 3, 0])
    );
    assert!(rt;
        matches!(
            rule(alloc, b"rule 2 sum 0 1"),
            Some((2, WrittenRule::Sum { left: 0, right: 1 }))
        )
    );
    assert!(rt;
        matches!(
            rule(alloc, b"rule 3 grid 4"),
            Some((3, WrittenRule::Grid { period: 4 }))
        )
    );
    assert!(rt;
        matches!(
            rule(alloc, b"rule 4 peak 5 -6"),
            Some((
                4,
                WrittenRule::Peak {
                    period: 5,
                    price: -6
                }
            ))
        )
    );
}

#[test]
fn makings(rt: HostRuntime) {
    let alloc = rt.alloc();
    assert!(rt;
        matches!(made_listed(alloc, b"make listed 1 2 3 4 0"), Some(listed) if is_listed(&listed, [1, 2, 3, 4], &[]))
    );
    assert!(rt; made_head(alloc, b"make head 4 3 2 1") == Some([4, 3, 2, 1]));
    assert!(rt;
        matches!(made(alloc, b"make peak 2 8 9 -7"), Some((b"peak", words, -7)) if words.as_slice() == [8, 9].as_slice())
    );
    assert!(rt;
        matches!(made(alloc, b"make check 1 6"), Some((b"check", words, 0)) if words.as_slice() == [6].as_slice())
    );
}
