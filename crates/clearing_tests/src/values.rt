// Causes and sides as values.
use clearing::cause::{Cause, Denial, UnknownCause};
use clearing::side::Side;
use std::test::Fail;

#[test]
fn numbers_from_1_to_6_are_causes(rt: HostRuntime) {
    for number in 0..8 {
        let read = Cause::try_from(number).map(|cause| cause.number());
        let wanted = if (1..=6).contains(&number) {
            Ok(number)
        } else {
            Err(UnknownCause(number))
        };
        assert!(rt; read == wanted, "{number}");
    }
}

#[test]
fn what_is_printed_of_denials_and_sides(rt: HostRuntime) -> Result<(), Fail> {
    let denial = Denial::new(Cause::OverFirmCap, 12);
    let text = format!(in rt.alloc(); "{denial}, {}, {}", UnknownCause(7), Side::Sell.other())?;
    assert_eq!(rt;
        text.as_str(),
        "a firm's cap would be passed (cause 4, depth 12), no cause has the number 7, buy"
    );
    Ok(())
}
