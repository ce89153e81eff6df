//! The laws of storage, on functions that do nothing: each promises a statement of `specs/Laws.antt`.

ghost use Rattle.cx_storage.specs.Laws.Areas.{AreasApart, PresentInAreas, SameStorage, FreshArea, AreasFreed, AreaIsPresent, NextArea};
ghost use Rattle.cx_storage.specs.Laws.Spans.{SpanIsBytes, TogetherIsPresent, AreaIsTogether};
ghost use Rattle.cx_storage.specs.Laws.Writes.{ByteAfterSet, ByteAfterWrite, NothingWritten, SpanAfterWrite, SpanAside, WriteKeepsAreas, SetKeepsAreas, WritesKeepOthers};
ghost use Rattle.cx_storage.specs.Laws.Places.{PlaceIsFree, PlaceDecides};
ghost use Rattle.cx_storage.specs.Laws.Sound.{SoundKept};
ghost use Rattle.cx_storage.specs.Laws.Words.{WordAfterWrite};
ghost use Rattle.cx_storage.specs.Storage.{IsSoundStorage};
ghost use Rattle.cx_storage.specs.Aligned.{AreAligned};

use crate::stores::Store;

/// Every store is sound: its areas don't meet, are below 2^24 and have their bytes.
pub fn store_is_sound<S: Store>(_store: &S)
    ensures { IsSoundStorage (S.storage _store.now) }
{}

/// Every area of a store starts at a multiple of 16.
pub fn store_is_aligned<S: Store>(_store: &S)
    ensures { AreAligned (S.storage _store.now) }
{}

/// In sound storage no two areas have an address in common.
pub fn areas_apart()
    ensures { AreasApart }
{}

/// In sound storage a byte is present exactly where an area has its address, and is below 256.
pub fn present_in_areas()
    ensures { PresentInAreas }
{}

/// Sound storages with the same areas and the same byte at each address are the same.
pub fn same_storage()
    ensures { SameStorage }
{}

/// A span from an address below 2^24 is the bytes at its addresses.
pub fn span_is_bytes()
    ensures { SpanIsBytes }
{}

/// In sound storage an area that starts at an address is whole, and each span inside it is present.
pub fn area_is_present()
    ensures { AreaIsPresent }
{}

/// In sound storage the next area is the one with the least start that isn't below an address; there is none exactly
/// where no area starts there or above.
pub fn next_area_is_least()
    ensures { NextArea }
{}

/// In sound storage bytes that lie together are present, and bytes of one area and one block lie together.
pub fn together_is_present()
    ensures present { TogetherIsPresent }
    ensures area { AreaIsTogether }
{}

/// A byte written is at its address where there was one before, and every other byte is as it was.
pub fn byte_after_set()
    ensures { ByteAfterSet }
{}

/// What bytes written leave, byte by byte: the new ones in their span, where all of them are present, and every other
/// as it was; nothing is changed where one of them is absent. The addresses are below 2^24, and at most 2^24 bytes are
/// written.
pub fn byte_after_write()
    ensures whole { ByteAfterWrite }
    ensures nothing { NothingWritten }
{}

/// After a write its own span reads what was written; a span that meets none of its addresses reads as before. The
/// addresses are below 2^24, each span has at most 2^24 bytes, and those written are there.
pub fn span_after_write()
    ensures same { SpanAfterWrite }
    ensures aside { SpanAside }
{}

/// A write changes no area and no presence.
pub fn write_keeps_areas()
    ensures { WriteKeepsAreas }
{}

/// One byte written changes no area and no presence.
pub fn set_keeps_areas()
    ensures { SetKeepsAreas }
{}

/// A write into some areas leaves the bytes of all others. The address is below 2^24, and at most 2^24 bytes are
/// written.
pub fn others_stay()
    ensures { WritesKeepOthers }
{}

/// In sound storage an area of a byte or more that is put in at a place, which is free, has zeros; all other bytes and
/// areas are as before.
pub fn fresh_area()
    ensures { FreshArea }
{}

/// In sound storage, of areas that are freed no byte is left; all others are as before.
pub fn areas_freed()
    ensures { AreasFreed }
{}

/// In sound storage an area of a byte or more can be placed exactly at a multiple of 16 at which all of it lies in the
/// range and no byte of it is present.
pub fn place_is_free()
    ensures { PlaceIsFree }
{}

/// Of a range and a length there is at most one least place, and the areas decide it.
pub fn place_decides()
    ensures { PlaceDecides }
{}

/// Sound storage stays sound by each change: bytes below 256 written, an area put in at a least place as `get_area`
/// asks, areas freed.
pub fn sound_kept()
    ensures { SoundKept }
{}

/// A word or a halfword that was written at an address below 2^24, all of its bytes there, is read back from its place:
/// its first byte is the highest. The number fits.
pub fn word_after_write()
    ensures { WordAfterWrite }
{}
