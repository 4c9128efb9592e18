//! Versions, and the sizes of what crosses to C.
ghost use Rattle.std.specs.Prelude.{◌≡◌};
ghost use Rattle.pathserve_c.specs.Sizes.{size_named};

use crate::handles::Handle;
use flat_posts::{FlatCell, FlatClass, FlatMap, FlatPost, FlatRect, FlatReply, FlatTurn};
use std::mem::size_of;

/// The version of the interface: the major number times 65536, the minor one times 256, and the patch.
pub const VERSION: u32 = 256;

/// The version of the answers: libraries with the same one answer the same posts alike.
pub const ANSWERS: u32 = 2;

const _: () = prove!(size_of::<Handle>() == 16);

/// The version of the interface.
#[unsafe(no_mangle)]
pub extern "C" fn pathserve_version() -> u32
    ensures { result ≡ 256 }
{
    VERSION
}

/// The version of the answers.
#[unsafe(no_mangle)]
pub extern "C" fn pathserve_answers() -> u32
    ensures { result ≡ 2 }
{
    ANSWERS
}

/// The size of a struct by its number in the header. 0 of any other number.
#[unsafe(no_mangle)]
pub extern "C" fn pathserve_size_of(which: u32) -> usize
    ensures { result ≡ size_named which }
{
    match which {
        1 | 2 | 10 => size_of::<Handle>(),
        3 => size_of::<FlatMap>(),
        4 => size_of::<FlatClass>(),
        5 => size_of::<FlatRect>(),
        6 => size_of::<FlatPost>(),
        7 => size_of::<FlatTurn>(),
        8 => size_of::<FlatReply>(),
        9 => size_of::<FlatCell>(),
        _ => 0,
    }
}
