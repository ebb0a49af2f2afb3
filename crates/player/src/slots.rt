// Slots for values that cannot be dropped: a value is taken out, moved, and put back.
ghost use Rattle.std.specs.Prelude.{◌≡◌, None, Some};

/// Puts a value into a slot, which is empty.
pub fn put<T>(slot: &mut Option<T>, value: T)
    requires { slot.old ≡ None }
    ensures { slot.new ≡ Some value }
{
    match slot.replace(value) {
        None => {}
        Some(_) => unreachable!(),
    }
}
