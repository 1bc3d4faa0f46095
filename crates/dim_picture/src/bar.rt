//! Where a shape is.
ghost use Rattle.std.specs.Prelude.{◌<◌, ◌^◌};

/// The left upper corner of a shape, and its width, in pixels.
#[derive(Clone, Copy, Debug)]
pub struct Bar {
    pub x: u64,
    pub y: u64,
    pub width: u64,
    ghost near: { x < 2 ^ 48 },
    ghost high: { y < 2 ^ 48 },
}
