// The waves of small fleets.
ghost use Rattle.std.specs.Prelude.{◌*◌, ◌<◌, ◌≤◌};

use rollover_plan::{Wave, waves};
use std::alloc::{AllocError, Global};
use std::test::*;

/// The leaves of a wave in brackets.
fn put_wave(text: &mut String, wave: &Wave) -> Result<(), AllocError> {
    text.push('(')?;
    for leaf in wave.as_slice() {
        let digits = format!(in *text.allocator(); " {leaf}")?;
        text.push_str(&digits)?;
    }
    text.push_str(" )")
}

/// The waves of a fleet, one after another.
fn planned(
    alloc: Global,
    machines: u32,
    per_machine: u32,
    percent: u32,
) -> Result<String, AllocError>
    requires machines { 0 < machines }
    requires per_machine { 0 < per_machine }
    requires leaves { machines * per_machine ≤ 256 }
    requires low { 0 < percent }
    requires high { percent ≤ 100 }
{
    let waves = waves(alloc, machines, per_machine, percent)?;
    let mut text = String::new(alloc);
    for wave in waves.as_slice() {
        put_wave(&mut text, wave)?;
    }
    Ok(text)
}

#[test]
fn small_fleets_restart_wave_by_wave(rt: HostRuntime) -> Result<(), Fail> {
    let alloc = rt.alloc();
    assert_eq!(rt;
        planned(alloc, 2, 4, 2)?.as_str(),
        "( 0 )( 4 )( 1 )( 5 )( 2 )( 6 )( 3 )( 7 )"
    );
    assert_eq!(rt;
        planned(alloc, 2, 4, 50)?.as_str(),
        "( 0 4 )( 1 5 )( 2 6 )( 3 7 )"
    );
    assert_eq!(rt; planned(alloc, 1, 1, 1)?.as_str(), "( 0 )");
    Ok(())
}

#[test]
fn all_machines_restart_at_once(rt: HostRuntime) -> Result<(), Fail> {
    let waves = waves(rt.alloc(), 256, 1, 100)?;
    let sizes = waves.as_slice().first().map(|wave| wave.as_slice().len());
    assert_eq!(rt; waves.as_slice().len(), 1);
    assert_eq!(rt; sizes, Some(256));
    Ok(())
}
