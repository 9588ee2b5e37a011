use nf_cells::{is_missing, is_name, trimmed};
use std::test::Fail;

#[test]
fn reads_cells(rt: HostRuntime) -> Result<(), Fail> {
    // a cell, its value, whether this is missing, whether it is a name
    let cases: [(&[u8], &[u8], bool, bool); 12] = [
        (b"", b"", true, false),
        (b"   ", b"", true, false),
        (b" . ", b".", true, true),
        (b"..", b"..", false, true),
        (b"  a b ", b"a b", false, true),
        (b"\ta", b"\ta", false, false),
        (b"_x.Y-9", b"_x.Y-9", false, true),
        (b"a*", b"a*", false, false),
        (b"a,b", b"a,b", false, false),
        (b"\xc3\xa4", b"\xc3\xa4", false, false),
        (
            b"12345678901234567890123456789012",
            b"12345678901234567890123456789012",
            false,
            true,
        ),
        (
            b"123456789012345678901234567890123",
            b"123456789012345678901234567890123",
            false,
            false,
        ),
    ];
    for (cell, value, missing, name) in cases {
        assert_eq!(rt; trimmed(cell), value);
        assert_eq!(rt; is_missing(value), missing);
        assert_eq!(rt; is_name(value), name);
    }
    Ok(())
}
