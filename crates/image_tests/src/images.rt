use crate::test_image::{CODE, file};
use std::test::*;
use tal_image::Image;
use tal_types::{ImageView, Mark};

#[test]
fn an_image_is_written_as_it_was_read(rt: HostRuntime) -> Result<(), Fail> {
    let file = file(rt.alloc())?;
    let image = Image::read(rt.alloc(), &file)?;
    assert_eq!(rt; image.write(rt.alloc())?.as_slice(), file.as_slice());
    Ok(())
}

#[test]
fn an_image_lends_its_rows(rt: HostRuntime) -> Result<(), Fail> {
    let image = Image::read(rt.alloc(), &file(rt.alloc())?)?;
    let counts = [
        image.heap_words(),
        image.stacks(),
        image.functions(),
        image.classes(),
        image.kinds(),
        image.data_arrays(),
    ];
    assert_eq!(rt; counts, [64, 2, 2, 2, 1, 1]);
    assert_eq!(rt; image.code(), CODE.as_slice());
    Ok(())
}

#[test]
fn what_stands_at_a_number_or_an_address_is_found(rt: HostRuntime) -> Result<(), Fail> {
    let image = Image::read(rt.alloc(), &file(rt.alloc())?)?;
    assert_eq!(rt; image.function_at(0x100006), Some(1));
    assert_eq!(rt; image.mark_at(0x100010), Some(Mark { tag: 10, index: 0 }));
    assert_eq!(rt; image.data_word(3), Some(8));
    assert_eq!(rt; image.entry(1), Some(0));
    Ok(())
}
