//! Copies of values of a bounded length, which take no memory.
ghost use Rattle.std.specs.Prelude.{◌≡◌};

use arrayvec::ArrayVec;

// The same items again. It takes no memory.
pub(crate) fn copied<T: Copy + Default, const N: usize>(items: &ArrayVec<T, N>) -> ArrayVec<T, N>
    ensures { result ≡ items.now }
{
    match ArrayVec::try_from(items.as_slice()) {
        Ok(copy) => copy,
        Err(_) => unreachable!(),
    }
}
