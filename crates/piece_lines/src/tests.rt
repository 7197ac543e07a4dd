//! The rows are those of a program in another language, made from the rules alone.

use super::*;
use scrip_form::Name;
use std::alloc::Global;

const FIRST: &[u8] =
    b"MS1|shop.example|50|000000f400000000|000000f400000000|1000448||c585b864836a34fe5178f46935235d0f \
00112233445566778899aabbccddeeff\n";

const SECOND: &[u8] =
    b"MS1|shop.example|7|000000f400000001|000000f400000001|1000448||135b7ea5a5b73a941771e81baa62eb44 \
ffeeddccbbaa99887766554433221100\n";
/// What is appended for the two, behind a byte that stood there.
const ELEMENTS: &[u8] = b"!\
\x00\x5fMS1|shop.example|50|000000f400000000|000000f400000000|1000448||c585b864836a34fe5178f46935235d0f\
\x00\x11\x22\x33\x44\x55\x66\x77\x88\x99\xaa\xbb\xcc\xdd\xee\xff\
\x00\x5eMS1|shop.example|7|000000f400000001|000000f400000001|1000448||135b7ea5a5b73a941771e81baa62eb44\
\xff\xee\xdd\xcc\xbb\xaa\x99\x88\x77\x66\x55\x44\x33\x22\x11\x00";

/// What is answered for the first line, so many times, and then other bytes. None says that not this is
/// what stands then, where a byte stood before, or that memory was refused.
fn told(
    alloc: Global,
    count: u16,
    then: &[u8],
    rule: &PieceRule,
    appended: &[u8],
) -> Option<Result<u16, PieceLinesFault>> {
    let mut bytes = Vec::new(alloc);
    for _ in 0..count {
        bytes.extend_from_slice(FIRST).ok()?;
    }
    bytes.extend_from_slice(then).ok()?;
    let mut out = Vec::new(alloc);
    out.extend_from_slice(b"!").ok()?;
    let answer = read_piece_lines(&bytes, rule, &mut out);
    if out.as_slice() != appended {
        return None;
    }
    Some(answer)
}

/// The line of 53 BadInput for the first line, so many times, and then other bytes.
fn breaks(alloc: Global, count: u16, then: &[u8], rule: &PieceRule) -> Option<u16> {
    match told(alloc, count, then, rule, b"!")? {
        Err(PieceLinesFault::Line(line)) => Some(line),
        _ => None,
    }
}

#[test]
fn elements_are_appended(rt: HostRuntime) {
    let rules = [
        PieceRule::Any,
        PieceRule::StockOf(Name::new(b"shop.example").unwrap()),
    ];
    for rule in &rules {
        assert!(rt; told(rt.alloc(), 1, SECOND, rule, ELEMENTS) == Some(Ok(2)));
    }
}

#[test]
fn the_first_line_that_breaks_is_told(rt: HostRuntime) {
    let any = PieceRule::Any;
    assert!(rt; breaks(rt.alloc(), 0, b"", &any) == Some(0));
    assert!(rt; breaks(rt.alloc(), 0, b"\n", &any) == Some(1));
    assert!(rt; breaks(rt.alloc(), 1, &SECOND[..SECOND.len() - 1], &any) == Some(2));
    assert!(rt; breaks(rt.alloc(), 255, b"x", &any) == Some(256));
    assert!(rt; breaks(rt.alloc(), 256, b"x", &any) == Some(257));
    assert!(rt; breaks(rt.alloc(), 257, b"", &any) == Some(257));
    assert!(rt;
        breaks(
            rt.alloc(),
            1,
            b"MS1|shop.example|7|000000f400000001|000000f400000001|1000448||135b7ea5a5b73a941771e81baa62eb44 \
FFEEDDCCBBAA99887766554433221100\n",
            &any
        ) == Some(2)
    );
}

#[test]
fn stock_is_of_the_vendor_and_first_hand(rt: HostRuntime) {
    let stock = PieceRule::StockOf(Name::new(b"shop.example").unwrap());
    let issuer =
        b"MS1|shop.example|7|0100000000000005|0100000000000005|1000448||d306218554c7c55f17b8a54fb7a47925 \
ffeeddccbbaa99887766554433221100\n";
    let customer =
        b"MS1|shop.example|7|000000f400000001|000000f400000000|1000448||d2b982eb92d032996b7e9a11b6ef7005 \
ffeeddccbbaa99887766554433221100\n";
    let props =
        b"MS1|shop.example|7|000000f400000001|000000f400000001|1000448|a=1|583eca3193a37958094708ecc14a3704 \
ffeeddccbbaa99887766554433221100\n";
    assert!(rt; breaks(rt.alloc(), 1, issuer, &stock) == None);
    assert!(rt; breaks(rt.alloc(), 1, customer, &stock) == Some(2));
    assert!(rt; breaks(rt.alloc(), 1, props, &stock) == Some(2));
    let others = PieceRule::StockOf(Name::new(b"news.example").unwrap());
    assert!(rt; breaks(rt.alloc(), 1, b"", &others) == Some(1));
}
