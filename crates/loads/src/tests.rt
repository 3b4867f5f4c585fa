use crate::{Settings, Tenths, Window, price};
use rules::Fault;
use std::test::Fail;

#[test]
fn rounds_ties_away_from_zero(rt: HostRuntime) {
    assert_eq!(rt; Tenths(4).round().0, 0);
    assert_eq!(rt; Tenths(5).round().0, 1);
    assert_eq!(rt; Tenths(-4).round().0, 0);
    assert_eq!(rt; Tenths(-5).round().0, -1);
}

#[test]
fn weighs_a_settled_load(rt: HostRuntime) -> Result<(), Fail> {
    let mut window = Window::new();
    for sample in [
        12_434, 12_434, 12_434, 12_434, 12_435, 12_435, 12_435, 12_435,
    ] {
        assert!(rt; window.settled().is_none());
        window.push(Tenths(sample));
    }
    let mean = window.settled().ok_or("not settled")?;
    assert_eq!(rt; mean.0, 12_435);
    assert_eq!(rt; mean.above(Tenths(0)).0, 1_244);
    Ok(())
}

#[test]
fn takes_the_largest_loads(rt: HostRuntime) -> Result<(), Fail> {
    let mut window = Window::new();
    for _ in 0..8 {
        window.push(Tenths(200_000));
    }
    let mean = window.mean().ok_or("not full")?;
    assert_eq!(rt; mean.0, 200_000);
    assert_eq!(rt; mean.above(Tenths(-200_000)).0, 40_000);
    Ok(())
}

#[test]
fn prices_in_whole_cents(rt: HostRuntime) {
    assert_eq!(rt; price(499, 1), 0);
    assert_eq!(rt; price(500, 1), 1);
    assert_eq!(rt; price(500_450, 1_000_000), 500_450_000);
}

#[test]
fn refuses_settings_in_order(rt: HostRuntime) -> Result<(), Fail> {
    assert_eq!(rt; Settings::check(5, 3, 0).err().ok_or("passed")?.number(), 4);
    assert_eq!(rt; Settings::check(3, 3, 0).err().ok_or("passed")?.number(), 5);
    assert_eq!(rt;
        Settings::check(3, 10, 499).err().ok_or("passed")?.number(),
        6
    );
    let Ok(settings) = Settings::check(3, 10, 500) else {
        return Err(Fail::new("refused"));
    };
    assert_eq!(rt; settings.min(), 20);
    Ok(())
}
