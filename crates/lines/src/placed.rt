// Bytes with their place.
ghost use Rattle.std.specs.Prelude.{◌+◌, ◌^◌, ◌<◌, length};

mod cutting;

// Some bytes of a line or of a log, and where they begin in it.
#[derive(Clone, Copy)]
pub(crate) struct Placed<'a> {
    pub(crate) bytes: &'a [u8],
    pub(crate) at: usize,
    ghost fits: { at + length bytes.now < 2 ^ 64 },
}
