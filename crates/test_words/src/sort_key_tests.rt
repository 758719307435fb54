// Keys from outside, and the order that they give.
ghost use Rattle.std.specs.Prelude.{◌≤◌, ◌<◌, ◌^◌};

use gfx_words::ViewMode;
use sort_key::{KeyFields, SortKey};

#[test]
fn worked_keys(rt: HostRuntime) {
    assert_eq!(rt;
        SortKey::draw(ViewMode::Default, 0, false, 511, 0, 0).bits(),
        0x0043_fe00_0000_0000
    );
    assert_eq!(rt;
        SortKey::draw(ViewMode::DepthDescending, 0, false, 0, 0, 0).bits(),
        0x005f_ffff_fff0_0000
    );
    assert_eq!(rt;
        SortKey::draw(ViewMode::Sequential, 2, true, 3, 77, 5).bits(),
        0x0160_000a_80c0_0000
    );
}

#[test]
fn fields_come_back(rt: HostRuntime) {
    let key = SortKey::draw(ViewMode::DepthDescending, 511, true, 510, 7, 9);
    assert_eq!(rt;
        key.decode(),
        KeyFields {
            position: 511,
            mode_type: 1,
            blended: true,
            program: 510,
            depth_field: 4_294_967_288,
            number: 0
        }
    );
    assert_eq!(rt; key.view_position(), 511);
    let sequential = SortKey::draw(ViewMode::Sequential, 3, false, 1, 7, 524_287);
    assert_eq!(rt;
        sequential.decode(),
        KeyFields {
            position: 3,
            mode_type: 2,
            blended: false,
            program: 1,
            depth_field: 0,
            number: 524_287
        }
    );
}

fn bits(mode: ViewMode, program: u16, depth: u32, number: u32) -> u64
    requires program { program ≤ 511 }
    requires number { number < 2 ^ 19 }
{
    SortKey::draw(mode, 1, false, program, depth, number).bits()
}

#[test]
fn keys_order_draws(rt: HostRuntime) {
    assert!(rt; bits(ViewMode::Default, 1, 9, 9) < bits(ViewMode::Default, 2, 0, 0));
    assert!(rt; bits(ViewMode::DepthAscending, 9, 1, 9) < bits(ViewMode::DepthAscending, 0, 2, 0));
    assert!(rt;
        bits(ViewMode::DepthDescending, 9, 2, 9) < bits(ViewMode::DepthDescending, 0, 1, 0)
    );
    assert!(rt; bits(ViewMode::Sequential, 9, 9, 1) < bits(ViewMode::Sequential, 0, 0, 2));
    assert!(rt;
        SortKey::draw(ViewMode::Sequential, 0, true, 511, 0, 9).bits()
            < bits(ViewMode::Default, 0, 0, 0)
    );
}
