use super::lines::Line;
use super::numbers::{natural, signed_number};
use super::parts::Fields;

#[test]
fn numbers_at_their_limits(rt: HostRuntime) {
    let text =
        b"0\t1000000\t1000001\t99999999999999999999\t-1\t-1000000\t-1000001\t-0\t-\t01\t+1\t1a\ta\t";
    let mut fields = Fields::of(Line::new(3, text));
    // As a number, and as one with a sign: what is read, or the number of the fault.
    let answers: [(Result<u32, u32>, Result<i64, u32>); 14] = [
        (Ok(0), Ok(0)),
        (Ok(1_000_000), Ok(1_000_000)),
        (Err(23), Err(23)),
        (Err(23), Err(23)),
        (Err(22), Ok(-1)),
        (Err(22), Ok(-1_000_000)),
        (Err(22), Err(23)),
        (Err(22), Err(22)),
        (Err(22), Err(22)),
        (Err(22), Err(22)),
        (Err(22), Err(22)),
        (Err(22), Err(22)),
        (Err(22), Err(22)),
        (Err(22), Err(22)),
    ];
    for (number, signed) in answers {
        let (field, rest) = fields.cut();
        assert_eq!(rt;
            natural(field, 0, 1_000_000).map_err(|e| e.number()),
            number
        );
        assert_eq!(rt;
            signed_number(field, 1_000_000).map_err(|e| e.number()),
            signed
        );
        fields = rest;
    }
}
