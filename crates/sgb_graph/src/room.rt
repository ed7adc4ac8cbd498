//! Values put where room for them was taken before.
ghost use Rattle.std.specs.Prelude.{◌≡◌, ◌<◌, ◌++◌, [], ◌∷◌, vec_capacity, vec_len};

// Puts a value after the others, for which there is room. It takes no memory.
#[inline(always)]
pub(crate) fn put<T: Drop>(values: &mut Vec<T>, value: T)
    requires { vec_len values.old < vec_capacity values.old }
    ensures { values.new.items ≡ values.old.items ++ value ∷ [] }
{
    values.push_reserved(value);
}
