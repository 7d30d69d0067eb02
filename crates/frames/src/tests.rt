use super::choices::{ArbiterKind, Choices, PayloadKind, RouteKind, UnknownKind};
use super::frame::{Frame, decode};
use super::hex::{append_line, from_hex};
use super::limits::Excess;
use super::lines::{Line, Lines};
use super::output::{delivery_frame, refusal_frame};
use super::payload::{Collection, Payload};
use rules::arbiter::Arbiter;
use rules::route::RouteRule;
use schedule::geometry::Position;
use schedule::refusal::Refusal;
use schedule::sizes::{Size, Sizes};
use std::test::Fail;

#[test]
fn plan(rt: HostRuntime) -> Result<(), Fail> {
    let bytes = from_hex(rt.alloc(), b"010201020201010000020001")?.ok_or("no bytes")?;
    let Ok(
        Frame::Plan {
            sizes,
            choices,
            slots,
        },
    ) = decode(&bytes)
    else {
        return Err(Fail::new("no plan"));
    };
    assert_eq!(rt;
        [
            sizes.width,
            sizes.height,
            sizes.domains,
            sizes.depth,
            sizes.hop,
        ],
        [2, 1, 2, 2, 1]
    );
    assert_eq!(rt;
        [
            u8::from(choices.arbiter),
            u8::from(choices.route),
            u8::from(choices.payload),
        ],
        [1, 0, 0]
    );
    assert_eq!(rt; slots, [0, 1].as_slice());
    Ok(())
}

#[test]
fn injection(rt: HostRuntime) -> Result<(), Fail> {
    let bytes = from_hex(rt.alloc(), b"020000010000012c")?.ok_or("no bytes")?;
    let Ok(Frame::Inject(injection)) = decode(&bytes) else {
        return Err(Fail::new("no injection"));
    };
    assert_eq!(rt;
        [injection.router, injection.domain, injection.destination],
        [0, 0, 1]
    );
    assert_eq!(rt; injection.payload, [0, 0, 1, 44]);
    Ok(())
}

#[test]
fn steps(rt: HostRuntime) -> Result<(), Fail> {
    let Ok(Frame::Steps { count }) = decode(&[3, 3]) else {
        return Err(Fail::new("no steps"));
    };
    assert_eq!(rt; count, 3);
    Ok(())
}

#[test]
fn delivery(rt: HostRuntime) -> Result<(), Fail> {
    let mut line = Vec::new(rt.alloc());
    append_line(&mut line, &delivery_frame(1, 1, 0, 0, [0, 0, 1, 44]))?;
    assert_eq!(rt; line.as_slice(), b"04000000010100000000012c\n".as_slice());
    assert_eq!(rt; refusal_frame(Refusal::NotAFrame), [5, 1]);
    Ok(())
}

#[test]
fn lines(rt: HostRuntime) -> Result<(), Fail> {
    let mut told = Vec::new(rt.alloc());
    for line in Lines::new(b"01\n\n03") {
        told.push(line)?;
    }
    assert_eq!(rt;
        told.as_slice(),
        [Line::Ended(b"01"), Line::Ended(b""), Line::Unended(b"03"),].as_slice()
    );
    Ok(())
}

#[test]
fn choices(rt: HostRuntime) -> Result<(), Fail> {
    assert_eq!(rt; ArbiterKind::try_from(2), Ok(ArbiterKind::OrderList));
    assert_eq!(rt; RouteKind::try_from(2), Err(UnknownKind(2)));
    let choices = Choices {
        arbiter: ArbiterKind::OrderList,
        route: RouteKind::RowsFirst,
        payload: PayloadKind::Record,
    };
    assert_eq!(rt;
        format!(in rt.alloc(); "{choices}")?.as_str(),
        "arbiter order list, route rows first, payload record"
    );
    Ok(())
}

fn winner<A: Arbiter>(arbiter: &A, word: u32, sides: u8) -> u8 {
    arbiter.choose(word, sides).0
}

fn way<R: RouteRule>(route: &R) -> u8 {
    route.side(
        Position { column: 0, row: 0 },
        Position { column: 1, row: 1 },
    )
}

// sides 0 and 2 ask, and the word names side 1 as the first that is looked at
#[test]
fn kinds(rt: HostRuntime) -> Result<(), Fail> {
    assert_eq!(rt; winner(&ArbiterKind::Fixed, 1, 5), 0);
    assert_eq!(rt; winner(&ArbiterKind::Rotating, 1, 5), 2);
    assert_eq!(rt; way(&RouteKind::ColumnsFirst), 0);
    assert_eq!(rt; way(&RouteKind::RowsFirst), 2);
    Ok(())
}

fn sent<P: Payload>(payload: P) -> P {
    P::from_bytes(payload.to_bytes())
}

#[test]
fn payloads(rt: HostRuntime) -> Result<(), Fail> {
    let collection = Collection {
        tank: 1,
        litres: 300,
    };
    assert_eq!(rt; collection.to_bytes(), [0, 1, 1, 44]);
    assert_eq!(rt; sent(collection), collection);
    assert_eq!(rt; sent(300u32), 300);
    Ok(())
}

#[test]
fn limits(rt: HostRuntime) -> Result<(), Fail> {
    let sizes = Sizes {
        width: 8,
        height: 2,
        domains: 5,
        depth: 1,
        hop: 1,
    };
    assert_eq!(rt; Excess::of(sizes), Some(Excess::Domains));
    assert_eq!(rt;
        Refusal::from(Excess::Routers),
        Refusal::SizeOutOfLimits { size: Size::Width }
    );
    assert_eq!(rt;
        format!(in rt.alloc(); "{}", Excess::Domains)?.as_str(),
        "more than 4 domains"
    );
    Ok(())
}
