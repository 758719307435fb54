// Each test, operation, factor and equation once, with values that were worked out by hand.
use gfx_words::{StateWord, StencilWord};
use pixel_ops::{Pixel, Shaded, blend, depth_test, is_stored, pixel_step, stencil_step};

#[test]
fn depth_tests_by_number(rt: HostRuntime) {
    for (test, less, equal, greater) in [
        (0, true, true, true),
        (1, true, false, false),
        (2, true, true, false),
        (3, false, true, false),
        (4, false, true, true),
        (5, false, false, true),
        (6, true, false, true),
        (7, false, false, false),
        (8, true, true, true),
    ] {
        assert_eq!(rt; depth_test(test, 5, 6), less, "less at {test}");
        assert_eq!(rt; depth_test(test, 6, 6), equal, "equal at {test}");
        assert_eq!(rt; depth_test(test, 7, 6), greater, "greater at {test}");
    }
}

#[test]
fn stencil_operations_by_number(rt: HostRuntime) {
    for (op, at_most, at_least) in [
        (0, 0, 0),
        (1, 255, 0),
        (2, 200, 200),
        (3, 0, 1),
        (4, 255, 1),
        (5, 254, 255),
        (6, 254, 0),
        (7, 0, 255),
    ] {
        assert_eq!(rt; stencil_step(op, 255, 200), at_most, "at {op}");
        assert_eq!(rt; stencil_step(op, 0, 200), at_least, "at {op}");
    }
}

#[test]
fn factors_by_number(rt: HostRuntime) {
    for (factor, red, alpha) in [
        (1u8, 0, 0),
        (2, 100, 128),
        (3, 39, 64),
        (4, 61, 64),
        (5, 50, 64),
        (6, 50, 64),
        (7, 25, 32),
        (8, 75, 96),
        (9, 4, 32),
        (10, 96, 96),
        (11, 50, 128),
    ] {
        let number = factor as u64;
        let word = (number << 12) + (1 << 16) + (number << 20) + (1 << 24);
        let Ok(state) = StateWord::read(word) else {
            assert!(rt; false, "no word at {factor}");
            return;
        };
        let color = blend(&state, [100, 150, 200, 128], [10, 20, 30, 64]);
        assert_eq!(rt; (color[0], color[3]), (red, alpha), "at {factor}");
    }
}

#[test]
fn equations_by_number(rt: HostRuntime) {
    for (equation, red, green, alpha) in [
        (0u8, 255, 110, 192),
        (1, 100, 0, 64),
        (2, 0, 90, 0),
        (3, 100, 10, 64),
        (4, 200, 100, 128),
    ] {
        let number = equation as u64;
        let word = (0x2222 << 12) + (number << 28) + (number << 31);
        let Ok(state) = StateWord::read(word) else {
            assert!(rt; false, "no word at {equation}");
            return;
        };
        let color = blend(&state, [200, 10, 0, 128], [100, 100, 0, 64]);
        assert_eq!(rt;
            (color[0], color[1], color[3]),
            (red, green, alpha),
            "at {equation}"
        );
    }
}

#[test]
fn steps_of_a_pixel(rt: HostRuntime) {
    // writes red and alpha, tests for less and stores the depth; the stencil test never passes, and then stores 7
    let (Ok(state), Ok(none), Ok(never)) = (
        StateWord::read(0x40_0000_0019),
        StencilWord::read(0),
        StencilWord::read(0x3427_ff07),
    ) else {
        assert!(rt; false, "no words");
        return;
    };
    let shaded = Shaded {
        color: [1, 2, 3, 4],
        depth: 99,
    };
    let stored = Pixel {
        color: [9, 9, 9, 9],
        depth: Some(0x0500_0064),
    };
    let passed = pixel_step(stored, &shaded, &state, none);
    assert_eq!(rt;
        passed,
        Pixel {
            color: [1, 9, 9, 4],
            depth: Some(0x0500_0063)
        }
    );
    let failed = pixel_step(stored, &shaded, &state, never);
    assert_eq!(rt;
        failed,
        Pixel {
            color: [9, 9, 9, 9],
            depth: Some(0x0700_0064)
        }
    );
    let flat = pixel_step(
        Pixel {
            color: [9, 9, 9, 9],
            depth: None,
        },
        &shaded,
        &state,
        never,
    );
    assert_eq!(rt;
        flat,
        Pixel {
            color: [1, 9, 9, 4],
            depth: None
        }
    );
}

#[test]
fn a_fragment_is_stored_where_both_tests_pass(rt: HostRuntime) {
    let (Ok(less), Ok(masked)) = (
        StateWord::read(15 + (1 << 4)),
        StencilWord::read(0x1113_0f83),
    ) else {
        assert!(rt; false, "words");
        return;
    };
    let Ok(none) = StencilWord::read(0) else {
        assert!(rt; false, "no word");
        return;
    };
    let fragment = Shaded {
        color: [1, 2, 3, 4],
        depth: 100,
    };
    for (depth, word, stored) in [
        (None, masked, true),
        (Some(0x0300_0065), masked, true),
        (Some(0x0300_0064), masked, false),
        (Some(0x0400_0065), masked, false),
        (Some(0xf300_0065), masked, true),
        (Some(0x0400_0065), none, true),
    ] {
        let pixel = Pixel {
            color: [9, 9, 9, 9],
            depth,
        };
        assert_eq!(rt;
            is_stored(&pixel, &fragment, &less, &word),
            stored,
            "{depth:?}"
        );
        let after = pixel_step(pixel, &fragment, &less, word);
        assert_eq!(rt; after.color == [1, 2, 3, 4], stored, "{depth:?}");
    }
}
