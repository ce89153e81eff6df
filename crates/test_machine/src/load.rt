//! Images with and without faults, and loads at several addresses.
use cx_code::{Bytes, Image, Offsets};
use cx_load::{CheckedImage, ImageFault, LoadFault, Loaded, check, has_room, load, program_place};
use cx_storage::{Area, FlatStore, Kind, Owner, Store};
use cx_storage_pages::PagedStore;
use std::alloc::{AllocError, Global};
use std::test::Fail;

/// `size` bytes of 07.
fn bytes(alloc: Global, size: usize) -> Result<Vec<u8>, AllocError> {
    vec![in alloc; 0x07; size]
}

fn image(
    alloc: Global,
    text: &[u8],
    entry: u32,
    relocs: &[u32],
    stg_len: u32,
) -> Result<Image, AllocError> {
    Ok(Image {
        text: Bytes::from_vec(text.to_vec(alloc)?),
        entry,
        relocs: Offsets::from_vec(relocs.to_vec(alloc)?),
        stg_len,
    })
}

/// An image's fault, and the sizes of the text and of the offsets that come back.
fn checks(image: Image) -> (Option<ImageFault>, usize, usize) {
    match check(image) {
        Ok(checked) => (
            None,
            checked.image().text.as_slice().len(),
            checked.image().relocs.as_slice().len(),
        ),
        Err((image, fault)) => (
            Some(fault),
            image.text.as_slice().len(),
            image.relocs.as_slice().len(),
        ),
    }
}

#[test]
fn the_first_fault_is_answered(rt: HostRuntime) -> Result<(), Fail> {
    for (size, entry, relocs, stg_len, fault) in [
        (0, 0, [0, 0], 79, Some(ImageFault::BadLength)),
        (
            65537,
            65537,
            [65534, 65535],
            79,
            Some(ImageFault::BadLength),
        ),
        (8, 8, [5, 6], 79, Some(ImageFault::EntryOutside)),
        (8, 7, [0, 5], 79, Some(ImageFault::RelocOutside)),
        (8, 7, [4, 1], 79, Some(ImageFault::Overlap)),
        (8, 7, [4, 0], 79, Some(ImageFault::StgLength)),
        (8, 7, [0, 4], 65521, Some(ImageFault::StgLength)),
        (65536, 65535, [65532, 0], 65520, None),
    ] {
        let text = bytes(rt.alloc(), size)?;
        let image = image(rt.alloc(), text.as_slice(), entry, &relocs, stg_len)?;
        assert!(rt; checks(image) == (fault, size, 2), "{size}");
    }
    Ok(())
}

/// A checked image with this text, entered at its fifth byte.
fn checked(alloc: Global, text: &[u8], relocs: &[u32], stg_len: u32) -> Result<CheckedImage, Fail> {
    match check(image(alloc, text, 4, relocs, stg_len)?) {
        Ok(checked) => Ok(checked),
        Err((_, fault)) => Err(fault)?,
    }
}

// The calls without what their contracts ensure.

fn loads<S: Store>(
    alloc: Global,
    image: &CheckedImage,
    store: &mut S,
) -> Result<Loaded, LoadFault> {
    load(alloc, image, store)
}

/// Where a load put an image; None where it was refused.
fn place_of<S: Store>(alloc: Global, image: &CheckedImage, store: &mut S) -> Option<u32> {
    load(alloc, image, store).ok().map(|loaded| loaded.at)
}

/// The place for a program of `len` bytes, where there is one, and whether it has room.
fn room<S: Store>(store: &S, len: u32) -> (Option<u32>, bool) {
    if len == 0 {
        return (None, false);
    }
    (program_place(store, len), has_room(store, len))
}

/// Whether storage holds these bytes from an address on.
fn holds<S: Store>(store: &S, a: u32, bytes: &[u8; 12]) -> bool {
    a < 0x100_0000 && store.slice(a, 12) == Some(bytes.as_slice())
}

/// Whether a fixed area of this length, and of the region, starts there.
fn has_area<S: Store>(store: &S, start: u32, len: u32) -> bool {
    let owner = Owner {
        slot: 0,
        kind: Kind::Fixed,
    };
    start < 0x100_0000 && store.area_at(start) == Some(Area { start, len, owner })
}

/// Whether two loads of one image raise its words by their addresses.
fn raises_words<S: Store>(alloc: Global, store: &mut S) -> Result<bool, Fail> {
    let text = [
        0x00, 0x00, 0x00, 0x08, 0xC1, 0xC2, 0xC3, 0xFF, 0xFF, 0xFF, 0xFF, 0xC4,
    ];
    let image = checked(alloc, &text, &[7, 0], 80)?;
    let first = Loaded {
        at: 0x01_0000,
        len: 12,
        entry: 0x01_0004,
        stg_len: 80,
    };
    let loaded = loads(alloc, &image, store)? == first
        && place_of(alloc, &image, store) == Some(0x01_0010);
    let low = [
        0x00, 0x01, 0x00, 0x08, 0xC1, 0xC2, 0xC3, 0x00, 0x00, 0xFF, 0xFF, 0xC4,
    ];
    let high = [
        0x00, 0x01, 0x00, 0x18, 0xC1, 0xC2, 0xC3, 0x00, 0x01, 0x00, 0x0F, 0xC4,
    ];
    Ok(
        loaded
            && holds(store, 0x01_0000, &low)
            && holds(store, 0x01_0010, &high)
            && has_area(store, 0x01_0010, 12),
    )
}

#[test]
fn words_are_raised_by_the_load_address(rt: HostRuntime) -> Result<(), Fail> {
    assert!(rt; raises_words(rt.alloc(), &mut FlatStore::new(rt.alloc()))?);
    assert!(rt; raises_words(rt.alloc(), &mut PagedStore::new(rt.alloc()))?);
    Ok(())
}

/// A byte of storage.
fn byte<S: Store>(store: &S, a: u32) -> Option<u8> {
    if a < 0x100_0000 { store.byte(a) } else { None }
}

/// Whether 31 programs of the greatest length come to lie one after the other.
fn takes_31<S: Store>(alloc: Global, image: &CheckedImage, store: &mut S) -> bool {
    for k in 1u32..32 {
        if place_of(alloc, image, store) != Some(k * 0x01_0000) {
            return false;
        }
    }
    true
}

/// Whether the last of 32 programs of the greatest length is refused, and changes nothing.
fn refuses_the_last<S: Store>(alloc: Global, store: &mut S) -> Result<bool, Fail> {
    let text = bytes(alloc, 65_536)?;
    let image = checked(alloc, text.as_slice(), &[], 65_520)?;
    let empty = room(store, 0x1F_0000) == (Some(0x01_0000), true)
        && room(store, 0x1F_0001) == (None, false);
    let filled = takes_31(alloc, &image, store);
    let refused = loads(alloc, &image, store).err() == Some(LoadFault::NoRoom);
    Ok(
        empty
            && filled
            && refused
            && room(store, 1) == (None, false)
            && byte(store, 0x1F_FFFF) == Some(0x07)
            && byte(store, 0x20_0000).is_none(),
    )
}

#[test]
fn the_last_of_32_long_programs_has_no_room(rt: HostRuntime) -> Result<(), Fail> {
    assert!(rt; refuses_the_last(rt.alloc(), &mut FlatStore::new(rt.alloc()))?);
    assert!(rt; refuses_the_last(rt.alloc(), &mut PagedStore::new(rt.alloc()))?);
    Ok(())
}
