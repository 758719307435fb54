// The stack from outside: the order in which indices are given and come back.
use gfx_words::Refusal;
use handle_alloc::HandleAlloc;
use std::alloc::AllocError;

#[test]
fn gives_upwards_and_takes_the_last_freed(rt: HostRuntime) -> Result<(), AllocError> {
    let mut indices = HandleAlloc::new(rt.alloc(), 2)?;
    assert_eq!(rt; indices.alloc(), Ok(0));
    assert!(rt; !indices.is_full());
    assert_eq!(rt; indices.alloc(), Ok(1));
    assert!(rt; indices.is_full());
    assert_eq!(rt; indices.alloc(), Err(Refusal::Full));
    assert_eq!(rt; indices.live_count(), 2);
    assert!(rt; indices.is_live(0));
    indices.free(0);
    assert!(rt; !indices.is_live(0) && indices.is_live(1) && !indices.is_live(2));
    assert_eq!(rt; indices.alloc(), Ok(0));
    Ok(())
}

#[test]
fn the_last_freed_comes_first(rt: HostRuntime) -> Result<(), AllocError> {
    let mut indices = HandleAlloc::new(rt.alloc(), 5)?;
    for want in 0..5 {
        assert_eq!(rt; indices.alloc(), Ok(want));
    }
    for index in [1, 3, 0] {
        assert!(rt; indices.is_live(index));
        indices.free(index);
    }
    for want in [0, 3, 1] {
        assert_eq!(rt; indices.alloc(), Ok(want));
    }
    assert_eq!(rt; indices.alloc(), Err(Refusal::Full));
    Ok(())
}

#[test]
fn none_and_the_most(rt: HostRuntime) -> Result<(), AllocError> {
    let mut none = HandleAlloc::new(rt.alloc(), 0)?;
    assert_eq!(rt; none.alloc(), Err(Refusal::Full));
    let mut most = HandleAlloc::new(rt.alloc(), 65_535)?;
    for _ in 0..65_535u32 {
        assert!(rt; most.alloc().is_ok());
    }
    assert_eq!(rt; most.alloc(), Err(Refusal::Full));
    assert_eq!(rt; most.live_count(), 65_535);
    Ok(())
}
