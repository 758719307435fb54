// One example of each call.
use c_words::{
    Fault, Part, Things, format_of, layout_of, mode_of, program_of, status, told, uniform_kind_of,
};
use gfx_words::{Format, Handle, Info, Kind, ProgramKind, Refusal, UniformKind, ViewMode};
use std::alloc::Global;
use std::test::Fail;

#[test]
fn numbers_of_faults(rt: HostRuntime) -> Result<(), Fail> {
    assert_eq!(rt; status(Ok(())), 0);
    assert_eq!(rt; status(told(Err::<(), Refusal>(Refusal::OutOfMemory))), 17);
    assert_eq!(rt; status(Err(Fault::Unknown)), 108);
    assert_eq!(rt; status(Err(Fault::Taken)), 105);
    Ok(())
}

// A texture is given, and then another one of the same index: by the first one's word before and after, and by the other's.
fn found(alloc: Global) -> Option<(bool, bool, bool)> {
    let Ok(mut things) = Things::new(alloc) else {
        return None;
    };
    let first = Handle::of(Kind::Texture, 1023, 7, Info::Plain);
    let other = Handle::of(Kind::Texture, 1023, 8, Info::Plain);
    things.put(first);
    let before = things.find(first.word()) == Some(first);
    things.put(other);
    let Ok(things) = things.copy() else {
        return None;
    };
    let after = things.find(first.word()).is_none();
    Some((
        before,
        after,
        things.find_maybe(other.word()) == Some(Some(other)),
    ))
}

#[test]
fn words_of_one_index(rt: HostRuntime) -> Result<(), Fail> {
    assert_eq!(rt; found(rt.alloc()), Some((true, true, true)));
    Ok(())
}

fn part(attribute: u8, component: u8, count: u8) -> Part {
    Part {
        attribute,
        component,
        count,
    }
}

#[test]
fn layouts_of_parts(rt: HostRuntime) -> Result<(), Fail> {
    assert!(rt; layout_of(&[part(0, 2, 3), part(255, 9, 4), part(3, 0, 4)]).is_ok());
    assert!(rt; matches!(layout_of(&[part(7, 0, 1)]), Err(Fault::BadValue)));
    assert!(rt; matches!(layout_of(&[part(0, 3, 1)]), Err(Fault::BadValue)));
    assert!(rt;
        matches!(
            layout_of(&[part(0, 2, 5)]),
            Err(Fault::Refused(Refusal::BadSize))
        )
    );
    Ok(())
}

#[test]
fn values_of_numbers(rt: HostRuntime) -> Result<(), Fail> {
    assert!(rt; matches!(mode_of(3), Some(ViewMode::DepthDescending)));
    assert!(rt; matches!(format_of(1), Some(Format::D24S8)));
    assert!(rt; matches!(program_of(2), Some(ProgramKind::Texture)));
    assert!(rt; matches!(uniform_kind_of(1), Some(UniformKind::Int)));
    assert!(rt; mode_of(4).is_none());
    assert!(rt; format_of(256).is_none());
    assert!(rt; program_of(4).is_none());
    assert!(rt; uniform_kind_of(256).is_none());
    Ok(())
}
