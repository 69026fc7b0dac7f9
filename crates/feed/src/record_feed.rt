// A feed of six-byte records: its state.
ghost use Rattle.std.specs.Prelude.{◌+◌, ◌^◌, ◌<◌, length};

mod reading;

pub use reading::entries_stand;

// A feed of the entries of some bytes: `rest` has the bytes still to be read, and `place` is the place of the next entry.
// The bytes are records with no header: four bytes of stamp and two of letters, each with the least byte first.
#[derive(Drop)]
pub struct RecordFeed<'a> {
    rest: &'a [u8],
    place: u64,
    ghost fits: { place + length rest.now < 2 ^ 64 },
}
