use super::*;
use mc_outside::Link;

/// Whether a head is this one: its target, its piece from the value on, and its certificate.
fn is_head(i: u32, target: &[u8], piece: &[u8], cert: &[u8]) -> bool {
    let mut out = [0; 512];
    let len = write_head(i, &mut out);
    let Some(rest) = out[..len].strip_prefix(b"GET ") else {
        return false;
    };
    let Some(rest) = rest.strip_prefix(target) else {
        return false;
    };
    let Some(rest) = rest.strip_prefix(
        b" HTTP/1.1\r\nHost: play.example\r\nMillicent-Scrip: MS1|play.example|",
    ) else {
        return false;
    };
    let Some(rest) = rest.strip_prefix(piece) else {
        return false;
    };
    let Some(rest) = rest.strip_prefix(cert) else {
        return false;
    };
    rest == b"\r\n\r\n".as_slice()
}

/// The rows are those of a program in another language, made from the rules alone, with its own MD5.
const ROWS: [(u32, &'static [u8], &'static [u8], &'static [u8]); 13] = [
    (
        0,
        b"/p",
        b"100|0100000000000000|0100000000000000|2048||",
        b"626db0c4d3d4fcd06d70fe6bd7c61766",
    ),
    (
        1,
        b"/p",
        b"100|0100000000000001|0100000000000001|2048||",
        b"d4b52daf920cba4e88ebacdc3361a4f8",
    ),
    (
        2,
        b"/p",
        b"100|0100000000000002|0100000000000002|2048||",
        b"acf36853ebbb6e62498bb2f3279e3162",
    ),
    (
        3,
        b"/p",
        b"100|0100000000000003|0100000000000003|2048||",
        b"ce9a2b8a18686357259d1315166e1652",
    ),
    (
        4,
        b"/p",
        b"100|0100000000000004|0100000000000004|2048||",
        b"27f71ffd14e65984aa1d94bc7380d0d8",
    ),
    (
        5,
        b"/p",
        b"100|0100000000000004|0100000000000004|2048||",
        b"27f71ffd14e65984aa1d94bc7380d0d8",
    ),
    (
        6,
        b"/q",
        b"100|0100000000000004|0100000000000004|2048||",
        b"27f71ffd14e65984aa1d94bc7380d0d8",
    ),
    (
        7,
        b"/p",
        b"24|0100000000000007|0100000000000007|2048||",
        b"0752f25ed9cd87f575be591237f242cb",
    ),
    (
        2048,
        b"/p",
        b"100|0100000100000000|0100000100000000|4096||",
        b"1e21a004fe2317a792054ccf799f14b6",
    ),
    (
        2051,
        b"/p",
        b"100|0100000000000003|0100000000000003|2048||",
        b"ce9a2b8a18686357259d1315166e1652",
    ),
    (
        2054,
        b"/q",
        b"100|0100000100000004|0100000100000004|4096||",
        b"68c44eed3cd5e1867cf983b57f61a2eb",
    ),
    (
        9999,
        b"/p",
        b"24|010000040000070f|010000040000070f|10240||",
        b"6bfdaa76785b55cbd35032ca5335a249",
    ),
    (
        999999,
        b"/p",
        b"24|010001e80000023f|010001e80000023f|1001472||",
        b"c1d6cdbfbd7dba447894eb0d7cb6fcad",
    ),
];

#[test]
fn heads_are_what_another_program_computes(rt: HostRuntime) {
    for (number, target, body, cert) in ROWS.iter() {
        assert!(rt; is_head(*number, target, body, cert));
    }
}

/// A link gives a head in parts, and all came when no more comes.
#[test]
fn a_link_is_received_in_parts(rt: HostRuntime) {
    let mut heads = Heads::new(1);
    let mut buf = [0; 100];
    assert!(rt; matches!(heads.next_link(), Ok(true)));
    assert!(rt; matches!(heads.recv(&mut buf), Ok(100)));
    assert!(rt; !heads.is_done());
    assert!(rt; matches!(heads.recv(&mut buf), Ok(51)));
    assert!(rt; heads.is_done());
    assert!(rt; heads.now().seconds() == 0);
    assert!(rt; heads.now().seconds() == 1);
    heads.end_link();
    assert!(rt; matches!(heads.next_link(), Ok(false)));
}
