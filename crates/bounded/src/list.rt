ghost use Rattle.std.specs.Prelude.{◌≡◌, ◌≤◌, length};

mod changes;
mod reads;

/// The first `len` of `slots` are the list; the others are spare.
// By hand, since the kit's `ArrayVec` asks a default element of its users, which `new` does not. No model: users rest on `room`.
#[derive(Drop)]
pub struct Bounded<T: Copy, const N: usize> {
    slots: [T; N],
    len: usize,
    ghost wide: { length slots ≡ N },
    ghost room: { len ≤ N },
}
